//! The tokens of a script as its readers see them, with their numbers, and what one token is read as.
#![tactic(auto)]

mod heads;
mod reader;
mod sight;

pub use heads::{Head, Opening};
pub use reader::Reader;
pub use sight::{Sight, TOO_DEEP, UNEXPECTED, UNKNOWN, wants};
