ghost use Rattle.std.specs.Prelude.{◌≡◌, IfOk, map};
ghost use Rattle.floyd_assert_trees.specs.declared.items.FunCase.{FunCase};
ghost use Rattle.floyd_assert_trees.specs.declared.items.PredCase.{PredCase};
ghost use Rattle.floyd_predicates.specs.WellFormed.{are_of as are_of_lem, are_of_lists as are_of_lists_lem, are_of_trees as are_of_trees_lem, fun_fits as fun_fits_lem, of_first, pred_fits as pred_fits_lem};

use floyd_assert_trees::{Binder, FunBody, FunCase, Pattern, PredBody, PredCase};
use floyd_tree::Sort;
use std::alloc::AllocError;

/// Whether the patterns are those of lists, in either order.
fn are_of_lists(a: &Pattern, b: &Pattern) -> bool
    ensures { result ≡ are_of_lists_lem a.now b.now }
{
    match (a, b) {
        (Pattern::Nil, Pattern::Cons(_, _)) => true,
        (Pattern::Cons(_, _), Pattern::Nil) => true,
        _ => false,
    }
}

/// Whether the patterns are those of trees, in either order.
fn are_of_trees(a: &Pattern, b: &Pattern) -> bool
    ensures { result ≡ are_of_trees_lem a.now b.now }
{
    match (a, b) {
        (Pattern::Leaf, Pattern::Node(_, _, _)) => true,
        (Pattern::Node(_, _, _), Pattern::Leaf) => true,
        _ => false,
    }
}

/// Whether the patterns are those of that sort.
pub fn are_of(sort: &Sort, a: &Pattern, b: &Pattern) -> Result<bool, AllocError>
    ensures { IfOk result (λ r. r ≡ are_of_lem sort.now a.now b.now) }
{
    if sort.item()?.is_some() {
        return Ok(are_of_lists(a, b));
    }
    Ok(sort.node_item()?.is_some() && are_of_trees(a, b))
}

fn fun_cases_fit(arguments: &[Binder], cases: &[FunCase]) -> Result<bool, AllocError>
    ensures { IfOk result (λ r. r ≡ of_first arguments.now (map (λ (c : FunCase). c.pattern) cases.now)) }
{
    match arguments {
        [] => Ok(false),
        [first, ..] => match cases {
            [a, b] => are_of(&first.sort, &a.pattern, &b.pattern),
            _ => Ok(false),
        },
    }
}

fn pred_cases_fit(arguments: &[Binder], cases: &[PredCase]) -> Result<bool, AllocError>
    ensures { IfOk result (λ r. r ≡ of_first arguments.now (map (λ (c : PredCase). c.pattern) cases.now)) }
{
    match arguments {
        [] => Ok(false),
        [first, ..] => match cases {
            [a, b] => are_of(&first.sort, &a.pattern, &b.pattern),
            _ => Ok(false),
        },
    }
}

/// Whether a FUN's cases, where it has some, are one for each constructor of its first argument.
pub fn fun_fits(arguments: &[Binder], body: &FunBody) -> Result<bool, AllocError>
    ensures { IfOk result (λ r. r ≡ fun_fits_lem arguments.now body.now) }
{
    match body {
        FunBody::Whole(_) => Ok(true),
        FunBody::Cases(cases) => fun_cases_fit(arguments, cases.as_slice()),
    }
}

/// The same of a PRED.
pub fn pred_fits(arguments: &[Binder], body: &PredBody) -> Result<bool, AllocError>
    ensures { IfOk result (λ r. r ≡ pred_fits_lem arguments.now body.now) }
{
    match body {
        PredBody::Whole(_) => Ok(true),
        PredBody::Cases(cases) => pred_cases_fit(arguments, cases.as_slice()),
    }
}
