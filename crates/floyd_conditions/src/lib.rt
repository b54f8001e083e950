//! What holds in each of the branches of a test, and what the test needs.
#![tactic(auto)]

mod branches;
mod comparing;
mod formulas;
mod testing;

pub use branches::{Branches, Condition};
pub use formulas::{different, equal};
pub use testing::{Reader, condition};
