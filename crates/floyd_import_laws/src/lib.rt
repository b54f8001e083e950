//! What the goals give with which the proof of an import with a specification of its own starts. Only definitions and
//! laws: there is nothing to run.
#![tactic(auto)]

mod laws;

pub use laws::import_starts_prove;
