//! Formulas and assertions in which every occurrence of one term is replaced by another.
#![tactic(auto)]

mod hole_names;
mod holes;
mod rewriting;

pub use rewriting::{rewrite_assertion, rewrite_formula};
