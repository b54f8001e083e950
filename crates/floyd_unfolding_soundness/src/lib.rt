//! That goals hold where they do with the calls of a function replaced by what they mean. Only laws: there is nothing to run.
#![tactic(auto)]

mod laws;

pub use laws::unfold_fun_is_sound;
