//! That `forward` is sound on a set to what is read from memory. Only a law: there is nothing to run.
#![tactic(auto)]

mod laws;

pub use laws::read_is_sound;
