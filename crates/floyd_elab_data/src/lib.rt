//! Initial contents of global variables, and where a type is const at its top.
#![tactic(auto)]

mod constant;
mod constants;
mod lists;

pub use constant::constant_at;
pub use lists::contents;
