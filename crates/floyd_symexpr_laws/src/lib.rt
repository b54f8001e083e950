//! What the terms of rows mean: the values that the machine's operators give. Only laws: there is nothing to run.
#![tactic(auto)]

mod laws;

pub use laws::{cast_numbers_agree, one_number_agrees, two_numbers_agree};
