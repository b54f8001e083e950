//! Terms and formulas as they are written, grouped by the strengths of their operators.
#![tactic(auto)]

mod copies;
mod grouped;
mod grouping;
mod laws;
mod rows;
mod strengths;

pub use grouped::{Grouped, GroupedLink, Strength};
pub use grouping::group;
pub use laws::{is_only_grouping, keeps_order};
pub use strengths::{Level, strength_of};
