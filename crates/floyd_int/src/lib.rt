//! The integers of C: kinds, values, casts and operators.
#![tactic(auto)]

mod bits;
mod kinds;
mod laws;
mod operators;

pub use bits::{cast, repr, value};
pub use kinds::{IntKind, IntOp, Value};
pub use laws::bits_of_sums_and_products;
pub use operators::{binary, negate};
