//! What expressions stand for under an assertion, and the parts of memory in which their objects lie.
#![tactic(auto)]

mod evaluation;
mod expressions;
mod names;
mod operations;

pub use evaluation::{Evaluated, evaluate, locate};
pub use floyd_symexpr_paths::Located;
