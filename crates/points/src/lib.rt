// The stored points: which pairs the traces hold, and what trace reads reply. No code: specs/ and proofs/.
#![tactic(auto)]
