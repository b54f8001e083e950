//! That `forward_switch` is sound. Only laws: there is nothing to run.
#![tactic(auto)]

mod laws;

pub use laws::switch_is_sound;
