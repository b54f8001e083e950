//! That an assertion says the same after one term is put in the place of another of the same value. Only a law: there is nothing
//! to run.
#![tactic(auto)]

mod laws;

pub use laws::rewriting_keeps_assertions;
