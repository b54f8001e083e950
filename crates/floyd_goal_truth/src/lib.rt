//! When Pure goals are true, and that side formulas are true where their goal is. Only definitions and laws: there is
//! nothing to run.
#![tactic(auto)]

mod laws;

pub use laws::side_is_sound;
