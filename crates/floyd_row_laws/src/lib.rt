//! Both laws of the rows of commands, with one premise for all: a goal holds where the goals do that the row makes of it, and
//! these are well formed. Only definitions and laws: there is nothing to run.
#![tactic(auto)]

mod laws;

pub use laws::{rows_on_assertions, rows_on_formulas, rows_on_hypotheses, rows_on_memory};
