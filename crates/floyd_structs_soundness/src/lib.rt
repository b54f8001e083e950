//! That goals about memory hold where the goals hold that the commands on structs make of them. Only definitions and laws:
//! there is nothing to run.
#![tactic(auto)]

mod laws;

pub use laws::{join_struct_is_sound, split_struct_is_sound};
