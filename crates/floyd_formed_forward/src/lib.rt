//! That goals stay well formed behind `forward`. Only definitions and laws: there is nothing to run.
#![tactic(auto)]

mod laws;

pub use laws::forward_keeps_forms;
