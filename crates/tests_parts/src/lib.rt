//! Parts of memory and assertions from the rows of the tables of tests.
#![tactic(auto)]

mod parts;

pub use parts::{assertion_of, binders_of, part_of, parts_of, path_of, type_of};
