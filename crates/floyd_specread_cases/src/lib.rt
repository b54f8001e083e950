//! Whether the cases of FUNs and PREDs are one for each constructor, where the items read by the grammar.
#![tactic(auto)]

mod forms;
mod judging;

pub use forms::worded_list_at;
pub use judging::{fun_cases_differ_at, pred_cases_differ_at};
