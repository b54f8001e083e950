//! The rules that split parts of memory and join them: arrays, structs and shares.
#![tactic(auto)]

mod arrays;
mod join_array;
mod split_array;

pub use floyd_arrays_structs::{do_join_struct, do_split_struct};
pub use floyd_shares::{do_join_share, do_split_share};
pub use join_array::do_join_array;
pub use split_array::do_split_array;
