//! That goals stay well formed behind the commands on predicates. Only definitions and laws: there is nothing to run.
#![tactic(auto)]

mod laws;

pub use laws::{fold_keeps_forms, unfold_keeps_forms};
