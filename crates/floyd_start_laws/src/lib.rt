//! What the goals give with which proofs start: that a lemma is true, and that a body meets its specification. Only
//! definitions and laws: there is nothing to run.
#![tactic(auto)]

mod laws;

pub use laws::{function_starts_prove, lemma_starts_prove};
