//! Assertions read from the tokens of specifications and scripts, with what they are made of: sorts, binders, formulas,
//! temporaries and parts in lists.
#![tactic(auto)]

mod assertions;
mod existentials;
mod formulas;
mod locals;
mod parts;

pub use assertions::{assertion_at, body_at};
pub use existentials::{bind_all, binders_at, existentials_at, sort_at};
pub use formulas::{formulas_at, props_at};
pub use locals::{local_list_at, locals_at};
pub use parts::{part_list_at, seps_at};
