//! That a struct whose fields fill it is the sum of its fields. Only definitions and laws: there is nothing to run.
#![tactic(auto)]

mod laws;

pub use laws::structs_without_padding;
