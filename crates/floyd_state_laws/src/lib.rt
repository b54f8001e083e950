//! What a state that stands in the source of a goal gives to the evaluation of the expressions of its statements. Only laws:
//! there is nothing to run.
#![tactic(auto)]

mod laws;

pub use laws::{
    parts_are_sorted, runs_meet_their_source, statements_are_typed, valid_parts_are_seen,
};
