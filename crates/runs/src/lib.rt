// Runs of a count of slots: one frame for each slot, right after the last.
#![tactic(auto)]

pub mod parts;
pub mod run;
pub mod slots;
