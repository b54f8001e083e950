//! That commands get what they ask for. Only definitions and laws: there is nothing to run.
#![tactic(auto)]

mod laws;

pub use laws::commands_meet;
