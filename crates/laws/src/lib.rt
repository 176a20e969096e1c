// No function of its own: laws on tests, which the other crates' proofs share.
#![tactic(auto)]
