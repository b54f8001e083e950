//! When a goal holds because others do: the laws that the rules of proofs rest on. Only definitions and laws: there is
//! nothing to run.
#![tactic(auto)]

mod laws;

pub use laws::{follow, follow_by_cases, say_alike, sides_are_true, stay_well_formed};
