//! The goals with which proofs of functions and of lemmas start.
#![tactic(auto)]

mod blocks;
mod functions;
mod lemmas;

pub use functions::function_start;
pub use lemmas::lemma_start;
