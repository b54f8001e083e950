//! That goals of every kind hold where the goals of the cases of a hypothesis or of a variable do. Only laws: there is nothing
//! to run.
#![tactic(auto)]

mod laws;

pub use laws::every_destruct_is_sound;
