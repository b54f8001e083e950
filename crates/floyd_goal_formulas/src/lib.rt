//! What formulas say at their heads, and which of them need no proof.
#![tactic(auto)]

mod dropping;
mod keeping;
mod known;
mod laws;
mod saying;

pub use dropping::drops;
pub use keeping::{both, conjunction, kept, too_large};
pub use known::is_absurd;
pub use laws::{drops_hold, kept_hold};
pub use saying::{Said, says};
