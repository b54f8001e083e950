//! Goals as they are shown.
#![tactic(auto)]

mod assertions;
mod goals;
mod next;
mod parts;

pub use goals::goal_text;
