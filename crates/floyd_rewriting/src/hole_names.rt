ghost use Rattle.std.specs.Prelude.{◌≡◌, [], IfOk};
ghost use Rattle.floyd_assert_changes.specs.Changed.{has_name as has_name_lem};
ghost use Rattle.floyd_rewriting.specs.Holes.{hole_for, hole_name as hole_name_lem, is_there as is_there_lem};
ghost use Rattle.floyd_rewriting.specs.HolesClauses.{IsHole};
ghost use Rattle.floyd_tree.specs.Formulas.{formulas, formulas_mention};
ghost use Rattle.floyd_tree.specs.Plain.{mentions_in, plains};
ghost use Rattle.floyd_tree.specs.WellSorted.{sort_of};
ghost use Rattle.floyd_tree_sorts.specs.Heads.{binds as binds_lem};
ghost use Rattle.floyd_truth.specs.Capture.{bound_in, bound_in_some, marked};

use floyd_assert_trees::Binder;
use floyd_text::{Bytes, Name, Steps};
use floyd_tree::{
    Formula, FormulaHead, Head, MakeStop, Term, formula_head, formula_kids, formula_mentions, make,
    mentions, sort,
};
use std::alloc::{AllocError, Global};
use std::sync::ledger::Ledger;

/// How many names are tried: more than there can be.
const MOST_MARKS: u64 = 1 << 63;

/// The hole of that name for a term.
pub fn hole<L: Ledger>(
    alloc: Global,
    name: &Name,
    from: &Term,
    steps: &mut Steps<L>,
) -> Result<Term, AllocError>
    ensures value { IfOk result (λ h. h ≡ hole_for name.now (sort_of from.now)) }
    ensures sound { IfOk result (IsHole from.now) }
{
    let head = Head::Variable(name.share()?, sort(from).share()?);
    match make(alloc, head, &[], steps) {
        Ok(made) => Ok(made),
        Err(MakeStop::IllSorted) => unreachable!(),
        Err(MakeStop::TooLarge) => unreachable!(),
        Err(MakeStop::Memory) => Err(AllocError),
    }
}

/// A name that neither the term nor anything of the others has, if one of that many is such.
#[tactic(auto, using(crate::proofs::HoleNames::found_free, crate::proofs::HoleNames::most_is))]
pub fn hole_name(
    alloc: Global,
    from: &Term,
    binders: &[Binder],
    props: &[Formula],
    terms: &[Term],
) -> Result<Option<Name>, AllocError>
    ensures { IfOk result (λ o. o ≡ hole_name_lem from.now binders.now props.now terms.now) }
{
    'marks: for i in 0..MOST_MARKS {
        let name = mark(alloc, i + 1)?;
        if !is_there(from, binders, props, terms, &name) {
            return Ok(Some(name));
        }
    }
    Ok(None)
}

/// 'k
fn mark(alloc: Global, k: u64) -> Result<Name, AllocError>
    ensures { IfOk result (λ name. name ≡ marked [] k) }
{
    let text = format!(in alloc; "'{k}")?;
    Name::from_slice(alloc, text.as_bytes())
}

fn is_there(from: &Term, binders: &[Binder], props: &[Formula], terms: &[Term], x: &Name) -> bool
    ensures { result ≡ is_there_lem from.now binders.now props.now terms.now x.now }
{
    mentions(from, x)
        || has_name(binders, x)
        || some_mention(props, x)
        || some_bind(props, x)
        || some_have(terms, x)
}

fn has_name(binders: &[Binder], x: &Name) -> bool
    ensures { result ≡ has_name_lem x.now binders.now }
{
    'binders: for binder in binders {
        if x == &binder.name {
            return true;
        }
    }
    false
}

/// Whether the variable is free in one of the formulas.
fn some_mention(all: &[Formula], x: &Name) -> bool
    ensures { result ≡ formulas_mention x.now (formulas all.now) }
{
    'formulas: for formula in all {
        if formula_mentions(formula, x) {
            return true;
        }
    }
    false
}

/// Whether the variable occurs in one of the terms.
fn some_have(terms: &[Term], x: &Name) -> bool
    ensures { result ≡ mentions_in x.now (plains terms.now) }
{
    'terms: for term in terms {
        if mentions(term, x) {
            return true;
        }
    }
    false
}

/// Whether the head binds the name.
fn binds(head: &FormulaHead, x: &Name) -> bool
    ensures { result ≡ binds_lem x.now head.now }
{
    match head {
        FormulaHead::Forall(y, _) => x == y,
        FormulaHead::Exists(y, _) => x == y,
        _ => false,
    }
}

/// Whether the name is bound somewhere in the formula.
#[cycle(bound)]
#[tactic(auto, using(floyd_assert_changes::proofs::Heights::formulas_below, crate::proofs::HoleNames::bound_parts))]
fn is_bound(f: &Formula, x: &Name) -> bool
    ensures { result ≡ bound_in x.now f.now }
{
    binds(formula_head(f), x) || some_bind(formula_kids(f).as_slice(), x)
}

#[cycle(bound)]
#[tactic(auto, using(floyd_assert_changes::proofs::Heights::formula_height_at))]
fn some_bind(all: &[Formula], x: &Name) -> bool
    ensures { result ≡ bound_in_some x.now (formulas all.now) }
{
    'formulas: for formula in all {
        if is_bound(formula, x) {
            return true;
        }
    }
    false
}
