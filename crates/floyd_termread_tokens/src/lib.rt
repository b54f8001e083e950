//! The tokens of a specification or a script as the readers of its terms and formulas see them, and the words of the
//! grammar.
#![tactic(auto)]

mod reader;
mod seen;
mod words;

pub use reader::Reader;
pub use seen::{Seen, TOO_DEEP, UNEXPECTED, inside};
pub use words::{is_free, is_hypothesis, word_of};
