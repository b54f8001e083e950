//! That assertions stay well formed with terms in the place of variables, where existentials get new names, and so do goals
//! behind the commands that put them. Only definitions and laws: there is nothing to run.
#![tactic(auto)]

mod laws;

pub use laws::exists_keeps_forms;
