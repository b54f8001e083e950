//! The commands that open a predicate and close it again.
#![tactic(auto)]

mod folding;
mod settling;
mod unfolding;

pub use folding::do_fold;
pub use settling::settled;
pub use unfolding::do_unfold;
