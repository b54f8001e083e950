//! What integer expressions of C mean, and that elaboration keeps it.
#![tactic(auto)]

mod laws;

pub use laws::{
    allowed_temporaries_hold_numbers, distinct_variables_are_distinct_places,
    drawn_names_are_apart, elaboration_types_as_typing_does, expressions_keep_their_meaning,
    memory_is_read_by_pulls, runs_are_steps, straight_expressions_keep_their_meaning,
};
