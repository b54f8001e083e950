//! Sorts, and the binders of quantifiers, read into the trees of what is written.
#![tactic(auto)]

mod read_sorts;
mod take_sorts;
mod values;

pub use read_sorts::{read_binders, read_quantified, read_sort};
pub use values::Binders;
