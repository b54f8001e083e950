//! Passages of specifications and scripts: what their trees are read as, and where they end.
#![tactic(auto)]

mod passages;

pub use passages::{formula_of, path_of, term_of, type_of};
