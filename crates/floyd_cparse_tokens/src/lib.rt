//! The tokens of a source of C as its readers see them, and the names of types in scope.
#![tactic(auto)]

mod names;
mod sight;
mod tokens;

pub use names::TypeNames;
pub use sight::{Reader, Sight};
pub use tokens::{LEFT_OUT, SHADOWED, TOO_DEEP, UNEXPECTED, found_or, inside};
