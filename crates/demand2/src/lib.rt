// Demand 2: replies, settings and lines of several commands. No code: specs/ and proofs/.
#![tactic(auto)]
