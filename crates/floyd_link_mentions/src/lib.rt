//! The names of the file that a source mentions.
#![tactic(auto)]

mod contents;
mod expressions;
mod statements;
mod units;

pub use units::mentions_of;
