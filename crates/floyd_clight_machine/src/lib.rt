//! The Clight machine: definitions and their laws, which no code runs.
#![tactic(auto)]

mod laws;

pub use laws::{
    bounds_stay, evaluation_depends_on_its_footprint, evaluation_lasts,
    steps_are_alike_above_frames, steps_are_determined,
};
