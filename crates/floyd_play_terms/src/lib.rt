//! The terms of a command, with the sorts that are expected of them.
#![tactic(auto)]

mod expected;
mod terms;

pub use expected::Expected;
pub use terms::{enclosed_at, term_with, terms_at};
