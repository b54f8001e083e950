//! The variables and functions of a linked program.
#![tactic(auto)]

mod functions;
mod owns;
mod sharing;
mod variables;

pub use functions::linked_functions;
pub use owns::{owns_of, spec_with, with_pre};
pub use variables::linked_variables;
