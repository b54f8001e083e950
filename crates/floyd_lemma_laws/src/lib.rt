//! What lemmas may be used for. Only definitions and laws: there is nothing to run.
#![tactic(auto)]

mod laws;

pub use laws::lemmas_are_taken;
