//! The commands that speak of formulas alone: the goals that each makes, and that a goal is true where these are.
//!
//! Each call stands with its row and its law in one of the crates below.
#![tactic(auto)]

pub use floyd_pure_formulas::{
    cut_adds, cut_holds, destruct_holds, destruct_splits, discriminate_holds, discriminate_refutes,
    do_cut, do_destruct, do_discriminate, do_left, do_mp, do_refl, do_right, do_trivial,
    left_holds, mp_adds, mp_holds, refl_holds, right_holds, trivial_holds,
};
pub use floyd_pure_induction::do_induction;
pub use floyd_pure_laws::{do_law, do_lia, law_adds, law_holds, lia_holds};
pub use floyd_pure_quantifiers::{
    do_exists, do_inject, do_intro, do_specialize, do_split, exists_holds, inject_adds,
    inject_holds, intro_holds, specialize_adds, specialize_holds, split_holds,
};
pub use floyd_pure_rewriting::{do_rewrite, rewrite_holds};
pub use floyd_pure_simplifying::{do_simpl, simpl_holds};
