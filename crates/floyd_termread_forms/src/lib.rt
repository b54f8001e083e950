//! Formulas made of terms and formulas that were read: relations, connectives, and what stands before a formula.
#![tactic(auto)]

mod frames;
mod making;
mod sides;

pub use frames::{Frame, bind_all, frames_of, put_back_all, wrap};
pub use making::{Sides, first_wanted, place_formula, related, second_wanted};
pub use sides::{Side, join_sides};
