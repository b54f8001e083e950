//! What calls of functions may be replaced by. Only definitions and laws: there is nothing to run.
#![tactic(auto)]

mod laws;

pub use laws::calls_are_taken;
