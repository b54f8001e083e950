//! That goals stay well formed behind the commands that write equations, inequalities and what a law says. Only definitions and
//! laws: there is nothing to run.
#![tactic(auto)]

mod laws;

pub use laws::{inject_keeps_forms, law_keeps_forms, split_keeps_forms};
