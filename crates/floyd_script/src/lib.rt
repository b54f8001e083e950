//! Scripts from the tokens of their files: `read_script`.
#![tactic(auto)]

mod laws;
mod proofs_of;
mod reading;

pub use floyd_script_trees::{Command, CommandList, Proof, Script};
pub use laws::{beginnings_are_fronts, has_one_reading};
pub use reading::read_script;
