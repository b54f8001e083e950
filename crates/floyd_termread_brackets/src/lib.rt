//! Brackets of written terms and types: what their items are to be, and what is made of them; and what stands alone.
#![tactic(auto)]

mod brackets;
mod leaves;
mod parts;
mod slots;
mod types;

pub use brackets::{Edges, bracket_place, closed_term};
pub use leaves::{literal_term, number_place, struct_type, variable, word_term, word_type};
pub use parts::{global_part, local_part, scalar_type, value_type};
pub use slots::{Goal, Part, Slot, Slots, slots_of, type_slots};
pub use types::closed_type;
