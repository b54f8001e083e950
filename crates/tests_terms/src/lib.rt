//! Terms and formulas from the rows of the tables of tests.
#![tactic(auto)]

mod heads;
mod large;
mod terms;
mod trees;

pub use heads::{shape_of, sort_of};
pub use large::replaces_leftmost;
pub use terms::{DEPTH, formula_of, formulas_of, term_of, terms_of};
pub use trees::{Stop, Tree, part, says, trees_of};
