//! Terms, formulas, types, paths and assertions read from the tokens of specifications and scripts.
#![tactic(auto)]

mod brackets;
mod reading;

pub use floyd_termread_scope::{Scope, Variables};
pub use reading::{read_assertion, read_formula, read_path, read_term, read_type};
