//! That the names of the file are known in what an evaluation gives, and in where an object lies. Only definitions and laws:
//! there is nothing to run.
#![tactic(auto)]

mod laws;

pub use laws::{evaluations_are_known, locations_are_known};
