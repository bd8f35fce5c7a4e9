// The kinds of number that the rules tell apart, with their limits, and the refusals, verdicts and types of frame with their numbers.
// The rules themselves are definitions: `specs/` has them, in the order of the paper.
#![tactic(auto)]

pub mod frame_type;
pub mod kinds;
pub mod refusal;
pub mod room;
pub mod verdict;
