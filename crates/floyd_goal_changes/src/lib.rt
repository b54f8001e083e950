//! Goals with terms in place of variables. What has none of the variables is shared.
#![tactic(auto)]

mod exits;
mod goals;

pub use exits::{change_exits, change_return};
pub use goals::change_goal;
