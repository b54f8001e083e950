ghost use Rattle.std.specs.Prelude.{◌≡◌, ◌++◌, [], IfOk, OnOk};
ghost use Rattle.floyd_assert_instances.specs.Specifications.{TakesTerms, returned as returned_lem};
ghost use Rattle.floyd_links.specs.Imports.{equation as equation_lem, equations, plain_assertion as plain_assertion_lem};
ghost use Rattle.floyd_import_starts.specs.StartClauses.{own_at};

use floyd_assert_instances::{Instance, instantiate};
use floyd_assert_trees::{Assertion, BinderList, Funspec, Local, LocalList, SepList};
use floyd_text::{Name, Steps};
use floyd_tree::{Formula, FormulaHead, FormulaList, Term, TermList, make_formula};
use std::alloc::{AllocError, Global};
use std::sync::ledger::Ledger;

/// The function's own specification at these terms. One beyond the limits, which no linked import has, is want of memory.
#[tactic(auto, using(crate::proofs::ImportLemmas::instance_is))]
pub(crate) fn own_instance<L: Ledger>(
    alloc: Global,
    own: &Funspec,
    terms: &TermList,
    steps: &mut Steps<L>,
) -> Result<Instance, AllocError>
    requires takes { TakesTerms own.now terms.now }
    ensures { IfOk result (λ i. i ≡ own_at own.now terms.now) }
{
    match instantiate(alloc, own, terms, steps) {
        Ok(i) => Ok(i),
        Err(_) => Err(AllocError),
    }
}

/// An assertion of formulas and memory alone.
pub(crate) fn plain_assertion(alloc: Global, props: FormulaList, parts: SepList) -> Assertion
    ensures { result ≡ plain_assertion_lem props parts }
{
    Assertion {
        existentials: BinderList::new(alloc),
        props,
        locals: LocalList::new(alloc),
        parts,
    }
}

#[tactic(auto, using(crate::proofs::ImportLemmas::formula_is))]
pub(crate) fn equation<L: Ledger>(
    alloc: Global,
    a: &Term,
    b: &Term,
    steps: &mut Steps<L>,
) -> Result<Formula, AllocError>
    ensures { IfOk result (λ f. f ≡ equation_lem a.now b.now) }
{
    let terms = [a.share()?, b.share()?];
    match make_formula(alloc, FormulaHead::Equal, &terms, &[], steps) {
        Ok(f) => Ok(f),
        Err(_) => Err(AllocError),
    }
}

/// Equations of the terms of two lists, one by one.
pub(crate) fn equations_of<L: Ledger>(
    alloc: Global,
    left: &[Term],
    right: &[Term],
    steps: &mut Steps<L>,
) -> Result<FormulaList, AllocError>
    ensures { IfOk result (λ all. all ≡ equations left.now right.now) }
{
    let mut all = FormulaList::new(alloc);
    'terms: for i in 0..left.len() {
        let Some(term) = right.get(i) else {
            return Ok(all);
        };
        all.push(equation(alloc, &left[i], term, steps)?)?;
    }
    Ok(all)
}

/// RETURN's term as that of a temporary without a name.
pub(crate) fn returned(alloc: Global, value: &Option<Term>) -> Result<LocalList, AllocError>
    ensures { IfOk result (λ all. all ≡ returned_lem value.now) }
{
    let mut all = LocalList::new(alloc);
    match value {
        None => Ok(all),
        Some(term) => {
            let name = Name::new(alloc, Vec::new(alloc))?;
            let term = term.share()?;
            all.push(Local { name, term })?;
            Ok(all)
        }
    }
}
