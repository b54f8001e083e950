//! The words of the items of specification files, and what is found among an item's tokens: other marks than one, and the
//! calls of a name.
#![tactic(auto)]

mod calls;
mod marks;
mod words;

pub use calls::{calls_between, is_call};
pub use marks::leads_other;
pub use words::{SpecWord, leads_spec_word, take_spec_word};
