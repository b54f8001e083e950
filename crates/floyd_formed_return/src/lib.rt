//! That goals stay well formed behind `forward`, also on a return of a value. Only definitions and laws: there is nothing to
//! run.
#![tactic(auto)]

mod laws;

pub use laws::forward_keeps_all_forms;
