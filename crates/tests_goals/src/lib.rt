//! Goals, structs, what commands are given, and what they answer, from the rows of the tables of tests.
#![tactic(auto)]

mod answers;
mod arguments;
mod completing;
mod goals;
mod same;
mod structs;

pub use answers::{are_goals, is_refusal};
pub use arguments::args_of;
pub use goals::{goal_of, names_of, no_defs, no_specs};
pub use structs::add_struct;
