// Demand 1: a refused command changes nothing but its error bit. No code: specs/ and proofs/.
#![tactic(auto)]
