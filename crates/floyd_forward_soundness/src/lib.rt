//! That `forward` is sound on statements. Only laws: there is nothing to run.
#![tactic(auto)]

mod laws;

pub use laws::{leaving_is_sound, set_is_sound};
