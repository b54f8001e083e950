//! The modules of a linked program.
#![tactic(auto)]

mod imports;
mod items;
mod modules;
mod names;

pub use modules::{Ground, linked_modules};
pub use names::program_names;
