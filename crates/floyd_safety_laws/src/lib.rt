//! What holds of safety for n steps, over the ways out of goals: it holds for fewer steps, with weaker ways out, beside
//! further memory, and above further frames. Only definitions and laws: there is nothing to run.
#![tactic(auto)]

mod laws;

pub use laws::{consequence, frame, sequence, steps_may_be_fewer};
