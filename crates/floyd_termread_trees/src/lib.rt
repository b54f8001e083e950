//! Terms, formulas, types and paths of specifications and scripts as they are written, and the words of their grammar.
//! Nodes keep the places that a later refusal may show.
#![tactic(auto)]

mod words;
mod written;

pub use words::{FormulaWord, SortWord, TermWord, TypeWord, Word};
pub use written::{Binder, Infix, Link, Opening, Prefix, SortItem, Written};
