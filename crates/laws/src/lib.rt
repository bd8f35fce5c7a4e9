// Pure mathematics that the other crates cite: `specs/` has the definitions, `proofs/` the laws. There is no code here.
#![tactic(auto)]
