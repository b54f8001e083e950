//! That goals stay well formed behind the commands that write formulas of parts of memory. Only definitions and laws: there is
//! nothing to run.
#![tactic(auto)]

mod laws;

pub use laws::facts_keeps_forms;
