//! That `forward_while` is sound. Only laws: there is nothing to run.
#![tactic(auto)]

mod laws;

pub use laws::while_is_sound;
