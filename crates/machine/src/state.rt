// What the slot machine keeps, as a struct by value.
use rules::kinds::{CoreNumber, Slot, TaskNumber, Units};
use tables::table::Table;

// The table, its order, the clock, and for each task its left work, last core, units done and units dropped; and the totals of
// moves and misses. What stands past the last task is 0.
// Lists side by side, and no list of tasks: `struct_means` (promises) speaks of these fields.
#[derive(Clone, Copy)]
pub struct State {
    pub table: Table,
    pub ranks: [TaskNumber; 64],
    pub clock: Slot,
    pub left: [Units; 64],
    pub last: [CoreNumber; 64],
    pub done: [Units; 64],
    pub dropped: [Units; 64],
    pub moves: u64,
    pub misses: u64,
}
