//! That goals about memory stay well formed behind the commands on structs. Only laws: there is nothing to run.
#![tactic(auto)]

mod laws;

pub use laws::{join_struct_keeps_forms, split_struct_keeps_forms};
