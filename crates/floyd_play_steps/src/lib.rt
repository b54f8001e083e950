//! Proofs played: commands in order, each on the first goal that is left.
//!
//! Two laws of the commands are asked for by name here, so that this crate does not stand on those that prove them.
#![tactic(auto)]

mod advancing;
mod few;
mod numbers;
mod playing;
mod sharing;
mod shot;
mod state;

pub use advancing::advance;
pub use numbers::NumberList;
pub use playing::{play, play_to};
pub use sharing::share_goals;
pub use shot::Shot;
pub use state::{PlayState, Start};
