//! The arguments of a command, read in the context of a goal.
#![tactic(auto)]

mod alone;
mod arguments;
mod assertions;
mod expecting;
mod laws;
mod locals;
mod making;
mod terms;
mod words;

pub use arguments::read_arguments;
