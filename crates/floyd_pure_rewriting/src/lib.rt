//! The command that rewrites a goal by an equation, and goals of which a part changes.
#![tactic(auto)]

mod changing;
mod rewrite;

pub use changing::{entail_with, no_occurrence, pure_with, run_with};
pub use rewrite::{do_rewrite, rewrite_holds, rewriting_keeps};
