//! The terms of LOCAL and SEP of an assertion, one after the other, and the assertion with others in their places.
#![tactic(auto)]

mod collecting;
mod filling;

pub use collecting::terms_in;
pub use filling::with_terms;
