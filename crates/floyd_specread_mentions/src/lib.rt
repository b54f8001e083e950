//! The names that a specification file mentions under `gv`.
#![tactic(auto)]

mod names;

pub use names::mentioned;
