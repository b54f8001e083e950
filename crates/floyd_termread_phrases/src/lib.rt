//! Phrases of a text, read from a place on: terms, formulas, types and paths.
#![tactic(auto)]

mod laws;
mod phrases;
mod text;

pub use laws::{has_one_answer, term_is_read};
pub use phrases::{Spot, formula_at, path_at, term_at, type_at};
pub use text::Text;
