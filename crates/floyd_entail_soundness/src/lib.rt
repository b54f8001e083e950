//! That goals about memory hold where the goals hold that the commands on their parts make of them. Only definitions and
//! laws: there is nothing to run.
#![tactic(auto)]

mod laws;

pub use laws::{
    cancel_is_sound, exists_is_sound, facts_is_sound, intros_is_sound, reroot_is_sound,
    valid_is_sound, weaken_is_sound,
};
