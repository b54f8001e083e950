//! What an evaluation gives is well formed where the assertion is. Only laws: there is nothing to run.
#![tactic(auto)]

mod laws;

pub use laws::{evaluations_fit, items_are_allowed, locations_fit};
