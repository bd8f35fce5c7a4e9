// Frames, written into the front of a lent part of a buffer.
#![tactic(auto)]

pub mod fields;
pub mod lent_names;
pub mod names;
pub mod pairs;
pub mod refusal;
pub mod slot;
pub mod start;
