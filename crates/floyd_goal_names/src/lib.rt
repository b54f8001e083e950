//! When a goal holds because it does with new variables. Only definitions and laws: there is nothing to run.
#![tactic(auto)]

mod laws;

pub use laws::follow_with_names;
