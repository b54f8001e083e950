//! What expressions stand for under an assertion, row by row: the terms that operators, comparisons and casts give of
//! their operands, with the formulas that must be true for it and the terms that must be valid.
#![tactic(auto)]

mod casts;
mod formulas;
mod integers;
mod needs;
mod rows;

pub use casts::{number_cast, pointer_cast};
pub use formulas::{say_at_most, say_from, say_of_type, say_pointer, say_range, say_to};
pub use integers::{
    arithmetic, bitwise, compared, comparison, complement, division, is_zero, negated, negation,
    shift,
};
pub use needs::{Needs, Number, Objects, Operand};
pub use rows::{constant, no_base, not_number, null_pointer, number, vint};
