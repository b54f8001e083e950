//! Phrases, parts and lists of specifications, read by the grammar alone: no name is looked up, and no sort is judged.
#![tactic(auto)]

mod lists;
mod parts;
mod phrases;

pub use lists::{Skimmed, skim_list};
pub use parts::skim_part;
pub use phrases::skim_phrase;
