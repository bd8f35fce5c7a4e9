// A table lent as a slice of row structs.
#![tactic(auto)]

pub mod rows;
