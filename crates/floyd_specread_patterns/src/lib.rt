//! Patterns: what the first argument of a FUN or PRED is made of.
#![tactic(auto)]

mod binders;
mod forms;
mod names;
mod patterns;

pub use binders::pattern_binders;
pub use forms::leads_pattern;
pub use patterns::pattern_at;
