//! Statements of C turned into Clight.
#![tactic(auto)]

mod conditions;
mod function;
mod locals;
mod returns;
mod statements;
mod variables;

pub use statements::body;
