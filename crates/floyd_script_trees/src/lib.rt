//! Scripts as they are kept: proofs with their commands, whose terms stay tokens; the words of commands, and what stands
//! behind each.
#![tactic(auto)]

mod shapes;
mod trees;
mod words;

pub use shapes::{Shape, shape_of};
pub use trees::{Command, CommandList, Proof, Script};
pub use words::rule_of;
