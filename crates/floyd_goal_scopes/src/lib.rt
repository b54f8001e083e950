//! That what is free in a well-formed goal is a variable of its context. Only definitions and laws: there is nothing to run.
#![tactic(auto)]

mod laws;

pub use laws::other_names_are_new;
