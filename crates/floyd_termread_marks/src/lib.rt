//! What stands between the terms and formulas of an assertion: its words, marks and names, and lists in parentheses.
#![tactic(auto)]

mod marks;
mod names;
mod words;

pub use marks::{first_place, leads_mark, take, take_before, take_mark};
pub use names::{given_name_at, leads_type, take_free_name};
pub use words::{AssertionWord, leads_word, part_word, take_word};
