//! Types of bodies in Clight and of initial contents: what elaboration promises of what it makes. Only definitions and laws:
//! there is nothing to run.
#![tactic(auto)]

mod laws;

pub use laws::worked_examples;
