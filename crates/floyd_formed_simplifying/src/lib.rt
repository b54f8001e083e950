//! That goals of every kind stay well formed behind the command that simplifies them. Only laws: there is nothing to run.
#![tactic(auto)]

mod laws;

pub use laws::simpl_keeps_forms;
