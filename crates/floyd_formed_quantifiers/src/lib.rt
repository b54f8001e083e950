//! That goals stay well formed behind the commands on quantified formulas and on cases. Only definitions and laws: there is
//! nothing to run.
#![tactic(auto)]

mod laws;

pub use laws::{
    exists_keeps_forms, hypothesis_cases_keep_forms, intro_keeps_forms, specialize_keeps_forms,
};
