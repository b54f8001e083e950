//! Which goals, assertions and items of specification files are well formed, and with which goals proofs start. Only
//! definitions and laws: there is nothing to run.
#![tactic(auto)]

mod laws;

pub use laws::lemmas_start_well_formed;
