// The calls of a C program: numbers and lent buffers in, the number of a refusal out, 0 where a call is taken. The crate `capi_c` exports
// each under its own name. Their parameters, a buffer with a place and a size among them, are those of the C functions. Each has a clause
// of its own, and what they share is `settle`.
//
// A call is taken or refused as a whole: where it is refused, what was lent is left as it was, but for the line of `zq_open`.
#![tactic(auto)]

mod answer;
pub mod program;
pub mod state;
pub mod table;
pub mod verdict;
