//! That `forward` is sound on an assignment to memory. Only a law: there is nothing to run.
#![tactic(auto)]

mod laws;

pub use laws::assign_is_sound;
