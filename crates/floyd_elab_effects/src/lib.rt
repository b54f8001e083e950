//! Assignments, steps and calls of C turned into Clight.
#![tactic(auto)]

mod calls;
mod effects;

pub use effects::{Destination, assign_first, effect, right_side};
