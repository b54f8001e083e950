//! That the goals with which a proof starts hold where it has a derivation, by the laws of the rows. Only definitions and laws:
//! there is nothing to run.
#![tactic(auto)]

mod laws;

pub use laws::{commands_are_lawful, commands_keep_forms, derived_goals_hold};
