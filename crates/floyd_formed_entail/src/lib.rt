//! That goals stay well formed behind the commands on goals about memory. Only definitions and laws: there is nothing to run.
#![tactic(auto)]

mod laws;

pub use laws::{cancel_keeps_forms, intros_keeps_forms};
