//! Terms for the variables of an item: which variable each stands for, in specifications, predicates and lemmas, and a
//! specification at such terms.
#![tactic(auto)]

mod instance;
mod pairing;

pub use instance::{Instance, instantiate};
pub use pairing::pairs;
