//! Terms in place of variables, of several at once, in terms, formulas, parts and assertions. Bound names are renamed only
//! where they would capture.
#![tactic(auto)]

mod apart;
mod assertions;
mod body;
mod changing;
mod fresh;
mod names;
mod parts;
mod prepare;
mod replace;
mod replace_formula;
mod substitution;

pub use apart::{rename_apart, rename_apart_from};
pub use substitution::{
    change_assertion, subst_assertion, subst_formula, subst_formulas, subst_parts, subst_terms,
};
