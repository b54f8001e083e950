//! Assertions, with equality of formulas up to bound names, equality of parts, and the difference of lists of parts.
#![tactic(auto)]

mod around;
mod equality;
mod parts;
mod removal;

pub use around::{Around, same_variable};
pub use equality::{equal_formula, same_term, same_terms, same_under};
pub use floyd_assert_trees::{
    Assertion, AssertionList, Binder, BinderList, Defs, Fun, FunBody, FunCase, FunCaseList,
    Funspec, Lemma, Local, LocalList, NameList, Names, Pattern, PlaceList, Postcondition,
    Precondition, Pred, PredBody, PredCase, PredCaseList, Region, Sep, SepList, SpecTable, Table,
    TypeList, assertion_size, part_size, props_size, share_binders, share_formulas, share_locals,
    share_parts, share_terms, terms_size,
};
pub use parts::{equal_part, equal_region};
pub use removal::remove_parts;
