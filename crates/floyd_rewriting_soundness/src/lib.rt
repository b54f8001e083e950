//! That goals of every kind hold where the rewritten goals do. Only definitions and laws: there is nothing to run.
#![tactic(auto)]

mod laws;

pub use laws::rewrite_is_sound;
