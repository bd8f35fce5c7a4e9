// The program's text for a table file: the lines of an accepted table, or the one line of a refusal.
#![tactic(auto)]

pub mod head;
pub mod report;
mod table;
