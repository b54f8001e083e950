//! The command that simplifies a goal.
#![tactic(auto)]

mod simpl;

pub use simpl::{do_simpl, simpl_holds};
