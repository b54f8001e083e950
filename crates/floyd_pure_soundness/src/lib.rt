//! That goals of every kind hold where the goals hold that a command makes of them: commands that add hypotheses, and
//! commands on formulas. Only definitions and laws: there is nothing to run.
#![tactic(auto)]

mod laws;

pub use laws::{
    adding_is_sound, cut_is_sound, destruct_is_sound, discriminate_is_sound, exists_is_sound,
    hypothesis_cases_are_sound, inject_is_sound, intro_is_sound, law_is_sound, left_is_sound,
    lia_is_sound, mp_is_sound, refl_is_sound, refuting_is_sound, right_is_sound,
    specialize_is_sound, split_is_sound, trivial_is_sound,
};
