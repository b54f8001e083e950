//! The types of C, and how they are laid out in memory.
#![tactic(auto)]

mod ctype;
mod define;
mod field;
mod fields;
mod hold;
mod laid;
mod layout;
mod sizes;
mod table;

pub use ctype::{CType, TypeList};
pub use define::DefineStop;
pub use field::{Field, FieldList};
pub use hold::has;
pub use layout::Layout;
pub use sizes::MAX_OBJECT;
pub use table::StructTable;
