//! Runs of programs and what it means that they are sound, and safety: definitions and their laws, which no code runs.
#![tactic(auto)]

mod laws;

pub use laws::{heaplets_stand_for_memory, premises_are_met};
