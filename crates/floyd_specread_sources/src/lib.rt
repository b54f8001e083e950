//! What a source gives its specification file: structs, names for `gv`, the types of functions, and which have a body.
#![tactic(auto)]

mod functions;
mod names;
mod structs;
mod tables;
mod types;

pub use functions::{Prototype, prototypes_of};
pub use names::{bodies_of, globals_of};
pub use structs::structs_of;
pub use tables::put_new;
pub use types::{same_type, same_types};
