// Laws of the priority order and of the repeat length: `proofs/` has them. There is no code here.
#![tactic(auto)]
