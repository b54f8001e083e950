//! That goals about memory stay well formed behind the commands on shares. Only laws: there is nothing to run.
#![tactic(auto)]

mod laws;

pub use laws::{join_share_keeps_forms, split_share_keeps_forms};
