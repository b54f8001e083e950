//! That goals of every kind stay well formed behind `destruct`. Only definitions and laws: there is nothing to run.
#![tactic(auto)]

mod laws;

pub use laws::destruct_keeps_forms;
