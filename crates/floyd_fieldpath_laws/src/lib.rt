//! What holds of paths into values: what the calls answer under their condition, and what their terms mean. Definitions
//! and laws, which no code runs.
#![tactic(auto)]

mod laws;

pub use laws::{addresses_at_paths, items_at_paths, paths_and_sorts};
