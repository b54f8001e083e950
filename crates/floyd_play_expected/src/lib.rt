//! The binders whose sorts the terms of a command are to have.
#![tactic(auto)]

mod binders;

pub use binders::expected_binders;
