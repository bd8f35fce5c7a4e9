// What the analysis says of a table: which tasks are heavy, whether it is admitted, and the priority order.
// A table is lent as `Rows`.
// Counts of at most 64 are narrowed by `as`: a `try_from` would bring a refusal that never comes.
#![tactic(auto)]

pub mod limit;
pub mod lines;
pub mod order;
pub mod rows;
pub mod share;
pub mod table;
