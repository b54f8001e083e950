ghost use Rattle.std.specs.Prelude.{◌≡◌, ◌∷◌, [], Some};
ghost use Rattle.floyd_assert_changes.specs.Changed.{AssertionSortsAgree, assertion_with, terms_in as terms_in_lem};
ghost use Rattle.floyd_assert_changes.specs.Substituted.{formula_with};
ghost use Rattle.floyd_rewriting.specs.Holes.{hole_name as hole_name_lem};
ghost use Rattle.floyd_rewriting.specs.Occurrences.{assertion_occurs, formula_occurs};
ghost use Rattle.floyd_rewriting.specs.Rewritten.{assertion_filled, assertion_rewritten, formula_filled, formula_rewritten, if_any, into_holes};
ghost use Rattle.floyd_text.specs.Gives.{RuleGives};
ghost use Rattle.floyd_tree.specs.WellSorted.{sort_of};
ghost use Rattle.floyd_truth.specs.Replace.{FormulaSortsAgree, puts};

use crate::hole_names::{hole, hole_name};
use crate::holes::{open_assertion, open_formula};
use floyd_assert_changes::{change_assertion, subst_formula};
use floyd_assert_terms::terms_in;
use floyd_assert_trees::Assertion;
use floyd_goal_formulas::too_large;
use floyd_text::{Name, RuleStop, Steps};
use floyd_tree::{Formula, Term, sort};
use std::alloc::Global;
use std::sync::ledger::Ledger;

/// The formula with `to` in the place of every occurrence of `from`, if there is one. An occurrence is of the whole term, and what
/// is put there is not looked at; under a binder of a variable of `from` there is none. A bound name that is free in `to` is
/// renamed where an occurrence stands below it. What has no occurrence is shared. The one refusal is that a term or formula is
/// too large.
pub fn rewrite_formula<L: Ledger>(
    alloc: Global,
    f: &Formula,
    from: &Term,
    to: &Term,
    steps: &mut Steps<L>,
) -> Result<Option<Formula>, RuleStop>
    requires sorts { sort_of from.now ≡ sort_of to.now }
    ensures exact { RuleGives (λ o. o) result (formula_rewritten from.now to.now f.now) }
{
    let only = [f.share()?];
    match hole_name(alloc, from, &[], &only, &[])? {
        None => Err(RuleStop::No(too_large())),
        Some(name) => formula_by(alloc, f, from, to, &name, steps),
    }
}

/// The same with holes of this name.
#[tactic(auto, using(crate::proofs::Filling::formula_nowhere, crate::proofs::Filling::formula_somewhere, crate::proofs::Filling::formula_stopped, crate::proofs::Filling::formula_ready))]
fn formula_by<L: Ledger>(
    alloc: Global,
    f: &Formula,
    from: &Term,
    to: &Term,
    name: &Name,
    steps: &mut Steps<L>,
) -> Result<Option<Formula>, RuleStop>
    requires sorts { sort_of from.now ≡ sort_of to.now }
    requires name { hole_name_lem from.now [] (f.now ∷ []) [] ≡ Some name.now }
    ensures { RuleGives (λ o. o) result (if_any (formula_occurs from.now f.now) (formula_filled from.now to.now f.now name.now)) }
{
    let _sort = sort(from);
    let hole = hole(alloc, name, from, steps)?;
    match open_formula(alloc, f, from, &hole, steps)? {
        None => Ok(None),
        Some(opened) => Ok(Some(fill_formula(alloc, &opened, from, to, name, steps)?)),
    }
}

/// `to` in the place of the holes of this name.
fn fill_formula<L: Ledger>(
    alloc: Global,
    opened: &Formula,
    from: &Term,
    to: &Term,
    name: &Name,
    steps: &mut Steps<L>,
) -> Result<Formula, RuleStop>
    requires { FormulaSortsAgree (puts (into_holes name.now from.now to.now)) opened.now }
    ensures { RuleGives (λ f. f) result (formula_with (into_holes name.now from.now to.now) opened.now) }
{
    let by = [(name.share()?, to.share()?), (name.share()?, from.share()?)];
    subst_formula(alloc, opened, &by, steps)
}

/// The assertion with `to` in the place of every occurrence of `from`, as in formulas: in PROP, in LOCAL and in the terms of
/// parts, where shares, sizes of types and subscripts count. Where an existential is a variable of `from` there is no occurrence.
pub fn rewrite_assertion<L: Ledger>(
    alloc: Global,
    a: &Assertion,
    from: &Term,
    to: &Term,
    steps: &mut Steps<L>,
) -> Result<Option<Assertion>, RuleStop>
    requires sorts { sort_of from.now ≡ sort_of to.now }
    ensures exact { RuleGives (λ o. o) result (assertion_rewritten from.now to.now a.now) }
{
    let terms = terms_in(alloc, a)?;
    let existentials = a.existentials.as_slice();
    match hole_name(
        alloc,
        from,
        existentials,
        a.props.as_slice(),
        terms.as_slice(),
    )? {
        None => Err(RuleStop::No(too_large())),
        Some(name) => assertion_by(alloc, a, from, to, &name, steps),
    }
}

/// The same with holes of this name.
#[tactic(auto, using(crate::proofs::Filling::assertion_nowhere))]
fn assertion_by<L: Ledger>(
    alloc: Global,
    a: &Assertion,
    from: &Term,
    to: &Term,
    name: &Name,
    steps: &mut Steps<L>,
) -> Result<Option<Assertion>, RuleStop>
    requires sorts { sort_of from.now ≡ sort_of to.now }
    requires name { hole_name_lem from.now a.now.existentials a.now.props (terms_in_lem a.now) ≡ Some name.now }
    ensures { RuleGives (λ o. o) result (if_any (assertion_occurs from.now a.now) (assertion_filled from.now to.now a.now name.now)) }
{
    let _sort = sort(from);
    let hole = hole(alloc, name, from, steps)?;
    match open_assertion(alloc, a, from, &hole, steps)? {
        None => Ok(None),
        Some(opened) => Ok(Some(fill_assertion(alloc, &opened, from, to, name, steps)?)),
    }
}

/// `to` in the place of the holes of this name.
fn fill_assertion<L: Ledger>(
    alloc: Global,
    opened: &Assertion,
    from: &Term,
    to: &Term,
    name: &Name,
    steps: &mut Steps<L>,
) -> Result<Assertion, RuleStop>
    requires { AssertionSortsAgree (puts (into_holes name.now from.now to.now)) opened.now }
    ensures { RuleGives (λ a. a) result (assertion_with (into_holes name.now from.now to.now) opened.now) }
{
    let by = [(name.share()?, to.share()?), (name.share()?, from.share()?)];
    change_assertion(alloc, opened, &by, steps)
}
