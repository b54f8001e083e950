//! That `forward_if` is sound. Only laws: there is nothing to run.
#![tactic(auto)]

mod laws;

pub use laws::if_is_sound;
