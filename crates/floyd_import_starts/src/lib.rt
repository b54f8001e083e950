//! The goals with which the proof of an import with a specification of its own starts.
#![tactic(auto)]

mod first;
mod instances;
mod posts;
mod starting;

pub use starting::import_starts;
