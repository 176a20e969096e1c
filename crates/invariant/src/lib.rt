// The invariant: every call leads from a valid module to a valid one. No code: specs/ and proofs/.
#![tactic(auto)]
