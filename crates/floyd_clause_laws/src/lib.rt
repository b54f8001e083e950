//! What the clause of a predicate says of memory. Only definitions and laws: there is nothing to run.
#![tactic(auto)]

mod laws;

pub use laws::{clauses_are_made, predicates_are_clauses};
