//! What is read of an assertion has one answer: one assertion with the token behind it, or one refusal. Only definitions and
//! laws: there is nothing to run.
#![tactic(auto)]

mod laws;

pub use laws::{assertion_has_one_answer, binders_have_one_answer, part_has_one_answer};
