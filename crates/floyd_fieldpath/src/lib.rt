//! Paths of fields and subscripts: the type, the address and the item at a path, and a value with another item there,
//! where the sizes of arrays, subscripts and values are terms.
#![tactic(auto)]

mod addresses;
mod defaults;
mod elements;
mod fields;
mod literals;
mod nested;
mod projections;
mod sorts;
mod sums;
mod terms;
mod updates;
mod views;
mod writing;

pub use addresses::{address, size_term};
pub use defaults::default_term;
pub use literals::{literal, sized_type};
pub use nested::nested_type;
pub use projections::project;
pub use sorts::value_sort;
pub use sums::{literal_in, moved, plus, times};
pub use updates::update;
