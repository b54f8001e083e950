//! That goals stay well formed behind each command on formulas. Only definitions and laws: there is nothing to run.
#![tactic(auto)]

mod laws;

pub use laws::{
    cut_keeps_forms, discriminate_keeps_forms, left_keeps_forms, lia_keeps_forms, mp_keeps_forms,
    refl_keeps_forms, right_keeps_forms, trivial_keeps_forms,
};
