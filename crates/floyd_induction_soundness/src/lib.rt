//! That the goal with which the proof of a lemma starts holds where its cases do with the lemma for the parts. Only
//! definitions and laws: there is nothing to run.
#![tactic(auto)]

mod laws;

pub use laws::induction_is_sound;
