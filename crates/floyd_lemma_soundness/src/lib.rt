//! That goals hold where the goals hold that the commands on lemmas make of them. Only definitions and laws: there is nothing
//! to run.
#![tactic(auto)]

mod laws;

pub use laws::{apply_ih_is_sound, apply_is_sound};
