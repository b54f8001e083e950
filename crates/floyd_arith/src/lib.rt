//! Linear terms over whole numbers, and certificates that refute by weights.
#![tactic(auto)]

mod apart;
mod certificates;
mod facts;
mod refusal;
mod truth;
mod unknowns;

pub use apart::linear;
pub use certificates::check_certificate;
pub use truth::certificates_hold;
pub use unknowns::{Linear, Unknown, UnknownList};
