//! What names stand for in the arguments of a command.
#![tactic(auto)]

mod scopes;

pub use scopes::variables_of;
