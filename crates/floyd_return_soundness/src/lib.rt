//! That `forward` is sound on returns and at a function's end. Only laws: there is nothing to run.
#![tactic(auto)]

mod laws;

pub use laws::{end_is_sound, return_is_sound};
