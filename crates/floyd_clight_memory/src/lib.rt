//! The memory of the Clight machine: definitions and their laws, which no code runs.
#![tactic(auto)]

mod laws;

pub use laws::{blocks_through_changes, freeable_blocks};
