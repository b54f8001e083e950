//! Expressions on pointers, and which row an operator or a cast has by its operands.
#![tactic(auto)]

mod identity;
mod operators;
mod pointers;

pub use operators::{binary, cast, operand, unary};
