// One slot on lent slices of plain numbers: what the slot machine runs in its loop, with no copy of the state.
// A slice that speaks of tasks has one entry a task, in table order; `cores` has one entry a core.
// The lists that change are lent one by one: a struct of them would ask a clause for each, that it is still the same list.
// That a number is a task's or a core's of a list is asked where the list is read: a type of the number would not know the list.
#![tactic(auto)]

mod choose;
pub mod columns;
pub mod counts;
mod end;
mod place;
pub mod release;
pub mod slot;
mod work;
