//! Declarations of functions, read and judged.
#![tactic(auto)]

mod by;
mod declaring;
mod given;
mod judging;
mod names;
mod standing;
mod typed;
mod unlike;

pub use judging::{Around, declaration_at};
pub use standing::Standing;
