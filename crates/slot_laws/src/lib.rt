// Laws of one slot and of runs of slots: `proofs/` has them. There is no code here.
#![tactic(auto)]
