//! The first form of a project: a `main` that sets int temporaries to constants and returns one of them, its
//! specification, and its script.
#![tactic(auto)]

mod left;
mod mains;
mod scripts;
mod specifications;
mod word;

pub use mains::main_in;
pub use scripts::{one_script, read_script};
pub use specifications::{one_spec, read_spec};
