//! What parts of memory at paths mean besides: that they may begin at their own addresses, have default values, and that
//! their addresses are valid. Only definitions and laws: there is nothing to run.
#![tactic(auto)]

mod laws;

pub use laws::{parts_are_valid, parts_at_their_addresses, parts_with_defaults};
