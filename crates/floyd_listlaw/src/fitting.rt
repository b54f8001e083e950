ghost use Rattle.std.specs.Prelude.{◌≡◌, IfOk, IfSome, option_and_then};
ghost use Rattle.floyd_tree_sorts.specs.Table.{found, s_in, written};
ghost use Rattle.floyd_tree_sorts.specs.declared.sorts.Sort.{Z};
ghost use Rattle.floyd_tree.specs.Plain.{plains};
ghost use Rattle.floyd_tree.specs.WellSorted.{sorts_of};
ghost use Rattle.floyd_listlaw.specs.FittingClauses.{fit_with};
ghost use Rattle.floyd_listlaw.specs.Instances.{fixed_by};

use floyd_tree::{Sort, Term, sort};
use floyd_tree_sorts::{Arguments, Row, RowSort, sort1};
use std::alloc::{AllocError, Global};

/// What stands for `S`, where the terms are of the sorts that are written.
pub fn fixed_by(
    alloc: Global,
    forms: &[RowSort],
    terms: &[Term],
) -> Result<Option<Sort>, AllocError>
    ensures { IfOk result (λ s. s ≡ option_and_then (fixed_by forms.now) (sorts_of (plains terms.now))) }
{
    let s = found(forms, terms)?;
    if fit(alloc, &s, forms, terms)? {
        Ok(Some(s))
    } else {
        Ok(None)
    }
}

/// What stands for `S` in the first argument that has it.
fn found(forms: &[RowSort], terms: &[Term]) -> Result<Sort, AllocError>
    ensures { IfOk result (λ s. IfSome (sorts_of (plains terms.now)) (λ sorts. s ≡ found s_in forms.now sorts)) }
{
    let [form, other_forms @ ..] = forms else {
        return Ok(Sort::Z);
    };
    let [term, others @ ..] = terms else {
        return Ok(Sort::Z);
    };
    s_in(*form, sort(term), found(other_forms, others)?)
}

/// What stands for `S` in an argument of this sort, and else the other.
fn s_in(form: RowSort, a: &Sort, other: Sort) -> Result<Sort, AllocError>
    ensures { IfOk result (λ s. s ≡ s_in form a.now other) }
{
    match form {
        RowSort::S => a.share(),
        RowSort::ListS => Ok(a.item()?.unwrap_or(other)),
        RowSort::TreeS => Ok(a.node_item()?.unwrap_or(other)),
        RowSort::ProdST => Ok(a.first()?.unwrap_or(other)),
        RowSort::Z | RowSort::Val | RowSort::T | RowSort::ListZ | RowSort::ListVal => Ok(other),
    }
}

/// Whether the terms are of the sorts that are written.
fn fit(alloc: Global, s: &Sort, forms: &[RowSort], terms: &[Term]) -> Result<bool, AllocError>
    ensures { IfOk result (λ yes. yes ≡ fit_with s.now forms.now (sorts_of (plains terms.now))) }
{
    let [form, other_forms @ ..] = forms else {
        return Ok(terms.is_empty());
    };
    let [term, others @ ..] = terms else {
        return Ok(false);
    };
    if !written(alloc, *form, s)?.matches(sort(term)) {
        return Ok(false);
    }
    fit(alloc, s, other_forms, others)
}

/// The sort that is written so, where this one stands for `S`: what a row gives that takes an `S`.
#[tactic(auto, using(crate::proofs::SortsFit::taken))]
pub fn written(alloc: Global, form: RowSort, s: &Sort) -> Result<Sort, AllocError>
    ensures { IfOk result (λ r. r ≡ written s.now Z form) }
{
    let row = Row {
        number: 0,
        takes: Arguments::One(RowSort::S),
        gives: form,
    };
    match sort1(alloc, row, s)? {
        Some(sort) => Ok(sort),
        None => unreachable!(),
    }
}
