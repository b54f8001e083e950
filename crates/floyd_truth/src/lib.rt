//! The truth of formulas, equality up to bound names, and substitution. Only definitions and their laws: there is nothing
//! to run.
#![tactic(auto)]

mod laws;

pub use laws::{have_one_truth, is_true_in_changed, means_in_changed};
