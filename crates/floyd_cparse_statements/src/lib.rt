//! Statements and local declarations of C read into syntax trees.
#![tactic(auto)]

mod read_labels;
mod read_locals;
mod read_statements;
mod take_statements;
mod values;

pub use read_statements::read_block_items;
pub use take_statements::take_equal;
