//! What the term of an expression means, and where the object of an expression lies. Only laws: there is nothing to run.
#![tactic(auto)]

mod laws;

pub use laws::{expressions_have_values, objects_lie_in_parts};
