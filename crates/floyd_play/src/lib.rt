//! Proofs played on their start goals: what plays through is proved.
#![tactic(auto)]

mod naming;
mod proving;

pub use proving::{play, play_to};
