//! What a test comes to where its source is met, and that the formula of the branch that is taken is true. Only laws: there is
//! nothing to run.
#![tactic(auto)]

mod laws;

pub use laws::tests_decide;
