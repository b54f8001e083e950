//! Types, expressions and statements from the rows of the tables of tests.
#![tactic(auto)]

mod alike;
mod expressions;
mod statements;
mod types;

pub use alike::same_statement;
pub use expressions::expression_of;
pub use statements::statements_of;
pub use types::{TYPE_DEPTH, ctype_of};
