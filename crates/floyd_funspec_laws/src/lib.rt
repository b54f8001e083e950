//! What an instance of a specification says of memory, from what its specification says. Only definitions and laws: there
//! is nothing to run.
#![tactic(auto)]

mod laws;

pub use laws::{instances_are_made, instances_say};
