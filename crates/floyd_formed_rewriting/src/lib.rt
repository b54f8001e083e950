//! That goals of every kind stay well formed behind the command that rewrites them. Only laws: there is nothing to run.
#![tactic(auto)]

mod laws;

pub use laws::rewrite_keeps_forms;
