//! The rules that split and join the shares of parts of memory.
#![tactic(auto)]

mod join_share;
mod shares;
mod split_share;

pub use join_share::do_join_share;
pub use split_share::do_split_share;
