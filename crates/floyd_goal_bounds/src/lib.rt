//! How many existentials the assertions of goals have, and that goals with few of them, within the limit on sizes, are not
//! beyond all bounds. Only definitions and laws: there is nothing to run.
#![tactic(auto)]

mod laws;

pub use laws::goals_are_small;
