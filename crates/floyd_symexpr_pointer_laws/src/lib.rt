//! What the terms of operators and casts mean, on numbers and pointers. Only laws: there is nothing to run.
#![tactic(auto)]

mod laws;

pub use laws::{binary_agrees, cast_agrees, needs_grow, unary_agrees};
