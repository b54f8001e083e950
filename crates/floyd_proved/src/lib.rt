//! Proofs that are played through, each with its start goals, which hold.
#![tactic(auto)]

mod claim;
mod proving;

pub use claim::{Claim, Proved, ProvedList};
pub use proving::proved;
