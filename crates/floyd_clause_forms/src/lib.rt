//! That the clause of a predicate is well formed. Only definitions and laws: there is nothing to run.
#![tactic(auto)]

mod laws;

pub use laws::{clauses_are_well_formed, folds_are_made};
