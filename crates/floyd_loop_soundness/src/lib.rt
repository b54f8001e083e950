//! That `forward_loop` is sound. Only laws: there is nothing to run.
#![tactic(auto)]

mod laws;

pub use laws::loop_is_sound;
