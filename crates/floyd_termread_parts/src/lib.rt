//! Parts of memory read from the tokens of specifications and scripts.
#![tactic(auto)]

mod arguments;
mod objects;
mod parts;
mod paths;
mod predicates;

pub use parts::part_at;
