// No function of its own: demand 3, over whole courses.
#![tactic(auto)]
