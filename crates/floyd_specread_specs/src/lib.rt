//! The text of a function's specification.
#![tactic(auto)]

mod globals;
mod reading;
mod text;
mod types;
mod values;

pub use reading::{spec_at, with_at};
pub use text::{PreText, SpecText};
pub use types::{result_type_at, types_at};
