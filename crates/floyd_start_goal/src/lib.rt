//! The goals with which a proof of a linked program starts.
#![tactic(auto)]

mod bodies;
mod imports;
mod starting;

pub use starting::start_goal;
