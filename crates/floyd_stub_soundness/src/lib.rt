//! A project whose proof plays through is sound.
#![tactic(auto)]

mod accepted;
mod laws;
mod program;

pub use accepted::{Accepted, NameList, accept};
pub use laws::derived_programs_are_sound;
pub use program::MainProgram;
