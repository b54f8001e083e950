//! The arguments of a command that are no terms, formulas or assertions.
#![tactic(auto)]

mod lists;
mod numbers;
mod plain;
mod tokens;

pub use plain::{no_args, plain_arguments_at};
pub use tokens::take_name;
