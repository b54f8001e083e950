//! Whether FUNs and PREDs call themselves on parts of their first arguments alone.
#![tactic(auto)]

mod arguments;
mod brackets;
mod judging;
mod runs;

pub use judging::structural;
