// Demand 3: an admitted table misses no deadline. `specs/` has the statements, `proofs/` the argument. There is no code here.
#![tactic(auto)]
