//! The play of a script.
#![tactic(auto)]

mod playing;

pub use playing::play;
