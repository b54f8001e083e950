//! Texts of terms and formulas that are cut off (laws).
#![tactic(auto)]

mod laws;

pub use laws::fronts_read;
