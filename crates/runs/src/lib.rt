// A run of bytes does what its bytes do one by one. No code: the claim is in specs/, its proof in proofs/.
#![tactic(auto)]
