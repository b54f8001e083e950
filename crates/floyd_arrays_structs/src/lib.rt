//! The rules that split a struct into its fields and its padding, and join them.
#![tactic(auto)]

mod around;
mod join_struct;
mod objects;
mod padding;
mod split_struct;
mod structs;

pub use join_struct::do_join_struct;
pub use split_struct::do_split_struct;
