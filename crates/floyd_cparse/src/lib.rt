//! Sources of C read into syntax trees.
#![tactic(auto)]

mod laws;
mod read_initialisers;
mod read_units;
mod source;
mod take_units;
mod values;

pub use laws::{beginnings_are_fronts, has_one_reading};
pub use source::parse;
