//! Specifications of functions: at terms for their variables, by name, and when two are the same.
#![tactic(auto)]

mod finding;
mod same_lists;
mod same_parts;
mod sameness;

pub use finding::find_spec;
pub use floyd_assert_instances::{Instance, instantiate};
pub use sameness::same;
