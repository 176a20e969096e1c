// No function of its own: the examples, as one table, and two scripts.
#![tactic(auto)]
