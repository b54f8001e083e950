//! A linked program whose functions, and whose modules' imports with a specification of their own, are found by name.
#![tactic(auto)]

mod linked;
mod places;

pub use linked::{Linked, LinkedParts};
