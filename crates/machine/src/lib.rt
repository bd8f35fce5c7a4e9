// The slot machine's state: its form, the state that a run starts in, the lead of a task, and the totals.
#![tactic(auto)]

pub mod form;
pub mod formed;
pub mod fresh;
pub mod lead;
pub mod state;
pub mod totals;
