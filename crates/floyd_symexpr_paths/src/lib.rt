//! Objects that expressions stand for, their addresses, and the parts of memory in which they lie.
#![tactic(auto)]

mod bounds;
mod forms;
mod location;
mod lvalue;
mod matching;
mod places;
mod same;
mod search;

pub use location::{Located, locate_object};
pub use lvalue::{Lvalue, NumberList, Taken, TakenList};
pub use places::{
    address_row, element, elements_at, field, first, no_part, object_value, pointed, variable,
};
