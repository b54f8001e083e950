//! That goals stay well formed behind `valid`. Only definitions and laws: there is nothing to run.
#![tactic(auto)]

mod laws;

pub use laws::valid_keeps_forms;
