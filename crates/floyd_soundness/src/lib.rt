//! A linked program all of whose functions, lemmas and imports are proved is sound.
#![tactic(auto)]

mod acceptance;
mod judging;
mod keys;
mod missing;
mod naming;

pub use acceptance::Accepted;
pub use judging::sound;
pub use keys::{Key, KeyList, Kind, kind_in};
pub use missing::{Missing, MissingList};
