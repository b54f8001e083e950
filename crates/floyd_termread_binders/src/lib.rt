//! Sorts and binders from the tokens of a file.
#![tactic(auto)]

mod reading;

pub use reading::{read_binders_at, read_sort_at};
