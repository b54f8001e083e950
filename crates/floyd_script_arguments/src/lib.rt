//! Readers of what stands behind the words of commands: numbers, names, and terms, formulas and assertions as lists of tokens.
#![tactic(auto)]

mod arguments;
mod phrases;

pub use arguments::read_arguments;
