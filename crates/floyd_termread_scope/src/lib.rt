//! What the names of terms and formulas stand for, and the sorts that are written for them.
#![tactic(auto)]

mod scope;
mod sorts;
mod variables;

pub use scope::Scope;
pub use sorts::sort_in;
pub use variables::Variables;
