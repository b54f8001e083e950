//! Terms of operators on numbers, which are folded where their arguments are literals.
#![tactic(auto)]

mod bits;
mod folding;
mod numbers;
mod writing;

pub use folding::{folded, folded_one, number_of_literal, number_of_literals};
pub use writing::{too_large, written};
