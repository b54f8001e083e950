//! Data and the values of terms. Only definitions and their laws: there is nothing to run.
#![tactic(auto)]

mod laws;

pub use laws::{act_on_bits, has_a_value, has_one_value, has_sort_where_sized, sublist_is_between};
