//! Heaplets: parts of memory with shares, and how the operations of memory act on them. Definitions and laws, which no
//! code runs.
#![tactic(auto)]

mod laws;

pub use laws::{memory_beside_frames, parts_of_heaplets, sums_of_heaplets};
