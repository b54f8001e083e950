//! What a predicate stands for at terms: its clause.
#![tactic(auto)]

mod clauses;
mod opening;
mod patterns;

pub use clauses::{clause, unfold};
pub use patterns::{is_of, named_parts};
