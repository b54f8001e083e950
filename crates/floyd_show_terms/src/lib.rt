//! Sorts, types, terms, paths and formulas as goals show them.
#![tactic(auto)]

mod formulas;
mod paths;
mod sized;
mod terms;
mod types;
mod words;

pub use formulas::put_formula;
pub use paths::put_path;
pub use sized::put_sized;
pub use terms::{put_kids, put_term};
pub use words::put_sort;
