//! That goals hold where the goals hold that the commands on predicates make of them. Only definitions and laws: there is
//! nothing to run.
#![tactic(auto)]

mod laws;

pub use laws::{fold_is_sound, unfold_is_sound};
