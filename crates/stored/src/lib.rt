// A state of the slot machine as bytes, and back.
//
// The layout of a stored state of n tasks: 22 + 34 * n bytes, every field big-endian. A fixed part of 22 bytes:
//
//     place  bytes  field
//         0      1  m, the number of cores
//         1      1  n, the number of tasks
//         2      4  the clock, in slots
//         6      8  total moves
//        14      8  total misses
//
// then one record of 34 bytes for each task, in table order, that of task i from place 22 + 34 * (i - 1) on:
//
//     place  bytes  field
//         0      4  C
//         4      4  T
//         8      1  the number of the task at rank i, where rank 1 is the highest priority
//         9      1  the core on which the task last ran, 0 for none
//        10      8  its units left
//        18      8  its units done
//        26      8  its units dropped
//
// A byte string of another length than its own n asks for, or one that does not stand for a well-formed state, is refused with 9.
// What is stored reads back as the same state, and what is read stores as the same bytes.
#![tactic(auto)]

pub mod bytes;
mod decode;
pub mod load;
pub mod store;

// How many bytes the fixed part takes, and how many a task's record.
pub(crate) const FIXED: usize = 22;

pub(crate) const RECORD: usize = 34;
