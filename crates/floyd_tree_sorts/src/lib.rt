//! The sorts of terms, what stands at the nodes of terms and formulas, and the sort table.
#![tactic(auto)]

mod connectives;
mod heads;
mod operators;
mod prints;
mod rows;
mod shape;
mod sorts;
mod table;

pub use connectives::{FormulaHead, StepShape, StepShapeList};
pub use heads::{Head, Width};
pub use operators::{Arguments, Operator, Row, RowSort};
pub use prints::{blend, slot};
pub use rows::takes;
pub use shape::{Shape, ShapeList, has_arrays};
pub use sorts::{Sort, SortList, all_z, sorts_match};
pub use table::{sort0, sort1, sort2, sort3};
