//! The commands that speak of formulas alone: the goals that each makes, and that a goal is true where these are.
#![tactic(auto)]

mod constructors;
mod cut;
mod destruct;
mod discriminate;
mod hypothesis_cases;
mod left_right;
mod mp;
mod naming;
mod refl;
mod rows;
mod trivial;
mod variable_cases;

pub use cut::{cut_adds, cut_holds, do_cut};
pub use destruct::{destruct_holds, destruct_splits, do_destruct};
pub use discriminate::{discriminate_holds, discriminate_refutes, do_discriminate};
pub use left_right::{do_left, do_right, left_holds, right_holds};
pub use mp::{do_mp, mp_adds, mp_holds};
pub use naming::{has_name, taken, variable};
pub use refl::{do_refl, refl_holds};
pub use rows::{alone, concluding, extended, named_by, no_such, with_more, with_these};
pub use trivial::{do_trivial, trivial_holds};
