//! Which local variables of a function have their address taken.
#![tactic(auto)]

mod expressions;
mod flags;
mod statements;
mod taken;

pub use flags::Flags;
pub use statements::{addresses, block_addresses};
