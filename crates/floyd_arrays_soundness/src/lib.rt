//! That goals about memory hold where the goals hold that the commands on arrays make of them. Only definitions and laws:
//! there is nothing to run.
#![tactic(auto)]

mod laws;

pub use laws::{join_array_is_sound, pieces_of_arrays, split_array_is_sound};
