//! The command that replaces calls of a function by what they mean.
#![tactic(auto)]

mod unfolding;

pub use unfolding::do_unfold_fun;
