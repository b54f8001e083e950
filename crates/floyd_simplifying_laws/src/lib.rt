//! That an assertion says the same after its formulas and terms are simplified, and that the command that simplifies a goal is
//! sound. Only laws: there is nothing to run.
#![tactic(auto)]

mod laws;

pub use laws::{simpl_is_sound, simplifying_keeps_assertions};
