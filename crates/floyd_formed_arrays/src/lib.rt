//! That goals about memory stay well formed behind the commands on arrays. Only laws: there is nothing to run.
#![tactic(auto)]

mod laws;

pub use laws::{join_array_keeps_forms, split_array_keeps_forms};
