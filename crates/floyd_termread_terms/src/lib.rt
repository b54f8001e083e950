//! Terms and types of specifications and scripts, judged: names, sorts and sizes.
#![tactic(auto)]

mod places;
mod rows;
mod terms;

pub use places::{first_place, name_of, prefix_place};
pub use terms::{judge_part, judge_term, judge_type};
