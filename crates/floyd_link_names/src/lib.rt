//! The names of the sources of a project: which are declared or defined once too often, which structs differ, which names no
//! module defines, and what is asked of main.
#![tactic(auto)]

mod duplicates;
mod entries;
mod mains;
mod missing;
mod refusals;
mod seen;
mod structs;

pub use duplicates::duplicate;
pub use mains::{is_main, main_pre_missing, no_main};
pub use missing::{names_of, unresolved};
pub use structs::struct_differs;
