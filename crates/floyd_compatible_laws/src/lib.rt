//! That memory and formulas agree on where an object may stand, and that the parts of an object are objects. Only
//! definitions and laws: there is nothing to run.
#![tactic(auto)]

mod laws;

pub use laws::{compatible_places_agree, parts_are_objects};
