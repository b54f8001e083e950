//! Assertions and the items of specification files, as trees whose terms are shared, and their sizes.
#![tactic(auto)]

mod assertion;
mod binder;
mod items;
mod pattern;
mod sep;
mod share;
mod sizes;
mod spec;
mod table;

pub use assertion::{Assertion, AssertionList, Local, LocalList};
pub use binder::{Binder, BinderList, NameList};
pub use items::{
    Defs, Fun, FunBody, FunCase, FunCaseList, Lemma, PlaceList, Pred, PredBody, PredCase,
    PredCaseList,
};
pub use pattern::Pattern;
pub use sep::{Region, Sep, SepList};
pub use share::{share_binders, share_formulas, share_locals, share_parts, share_terms};
pub use sizes::{assertion_size, part_size, props_size, terms_size};
pub use spec::{Funspec, Postcondition, Precondition, SpecTable, TypeList};
pub use table::{Names, Table};
