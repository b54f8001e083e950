//! What rows of commands on parts share besides: bounds of numbers, the first of a command's terms, the number of elements
//! of an array, and two parts that become one.
#![tactic(auto)]

mod bounds;
mod counts;
mod joining;
mod terms;

pub use bounds::{one_bound, two_bounds, two_formulas};
pub use counts::count_of;
pub use joining::{Pair, join_under, joined, pair_of, put_joined, two_of};
pub use terms::first_term;
