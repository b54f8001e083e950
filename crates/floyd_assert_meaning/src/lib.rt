//! What assertions and the specifications of functions mean. Definitions and laws, which no code runs.
#![tactic(auto)]

mod laws;

pub use laws::{
    equal_up_to_names, parts_of_assertions, say_alike, sums_of_parts, what_is_looked_at,
    worked_examples,
};
