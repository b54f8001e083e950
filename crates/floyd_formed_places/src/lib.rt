//! That goals stay well formed behind the commands that write what stands at a place of memory. Only definitions and laws: there
//! is nothing to run.
#![tactic(auto)]

mod laws;

pub use laws::{reroot_keeps_forms, weaken_keeps_forms};
