//! Formulas and paths of specifications and scripts, judged: names, sorts and sizes.
#![tactic(auto)]

mod formulas;
mod paths;
mod words;

pub use formulas::judge_formula;
pub use paths::judge_path;
