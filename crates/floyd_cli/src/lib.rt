//! The command line of floyd: its words, and the texts that it writes.
#![tactic(auto)]

mod load;
mod status;
mod texts;
mod top;
mod words;

pub use status::Status;
pub use top::floyd;
