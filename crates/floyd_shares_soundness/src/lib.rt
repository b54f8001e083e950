//! That goals about memory hold where the goals hold that the commands on shares make of them. Only definitions and laws:
//! there is nothing to run.
#![tactic(auto)]

mod laws;

pub use laws::{join_share_is_sound, split_share_is_sound};
