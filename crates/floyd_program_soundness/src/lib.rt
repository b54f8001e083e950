//! That a linked program is sound on the machine where its bodies are proved. Only definitions and laws: there is nothing to
//! run.
#![tactic(auto)]

mod laws;

pub use laws::{a_program_is_proved, proved_programs_are_sound};
