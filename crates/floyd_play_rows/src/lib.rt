//! The one table from commands to the calls that do them.
#![tactic(auto)]

mod doing;

pub use doing::{Trial, do_row};
