//! Expressions of C read into syntax trees.
#![tactic(auto)]

mod build_expressions;
mod expression_tokens;
mod operators;
mod read_expressions;
mod read_prefixes;
mod take_expressions;
mod values;

pub use expression_tokens::after_expression;
pub use read_expressions::{read_effect, read_expr};
pub use take_expressions::take_open;
pub use values::{Comma, Ending, Operand};
