//! The terms and formulas of the logic, as shared trees that contracts see as plain trees.
#![tactic(auto)]

mod atypes;
mod compare;
mod formulas;
mod paths;
mod rewriting;
mod stop;
mod substitution;
mod term;
mod variables;
mod weights;

pub use atypes::AType;
pub use compare::equal;
pub use floyd_tree_sorts::{
    FormulaHead, Head, Operator, Shape, ShapeList, Sort, SortList, StepShape, StepShapeList, Width,
    has_arrays,
};
pub use formulas::{
    Formula, FormulaList, formula_head, formula_kids, formula_size, formula_terms, make_formula,
};
pub use paths::{Path, PathStep};
pub use rewriting::rewrite_at;
pub use stop::{MakeStop, RewriteStop};
pub use substitution::subst;
pub use term::{MAX_HEIGHT, MAX_SIZE, Term, TermList, head, height, kids, make, size, sort};
pub use variables::{formula_mentions, mentions};
pub use weights::{Weight, WeightList};
