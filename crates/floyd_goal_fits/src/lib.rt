//! That well-formed goals are such as commands and their laws ask for. Only definitions and laws: there is nothing to run.
#![tactic(auto)]

mod laws;

pub use laws::goals_meet_commands;
