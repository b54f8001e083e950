ghost use Rattle.std.specs.Prelude.{◌≡◌, IfOk};
ghost use Rattle.floyd_simplifying.specs.Simplified.{formula_over as formula_over_lem, formula_simplified, formula_written, is_identity as is_identity_lem, true_or as true_or_lem};
ghost use Rattle.floyd_simplifying.specs.SimplifiedClauses.{all_simplified, both_over, identical as identical_lem, is_pair as is_pair_lem};
ghost use Rattle.floyd_text.specs.Gives.{RuleGives};
ghost use Rattle.floyd_tree.specs.Formulas.{Says, formulas};
ghost use Rattle.floyd_tree.specs.Plain.{plains};
ghost use Rattle.floyd_fieldpath.specs.Written.{ill_sorted as ill_sorted_lem};

use crate::changes::{formulas_or, push_formula, terms_or};
use crate::terms::simplify_terms;
use floyd_folding::too_large;
use floyd_text::{Code, No, RuleStop, Shown, Steps};
use floyd_tree::{
    Formula, FormulaHead, FormulaList, MakeStop, Term, TermList, equal, formula_head, formula_kids,
    formula_terms, make_formula,
};
use sqlite_items::Items;
use std::alloc::{AllocError, Global};
use std::sync::ledger::Ledger;

/// Whether they are two identical terms.
fn is_pair(terms: &[Term]) -> bool
    ensures { result ≡ is_pair_lem terms.now }
{
    match terms {
        [a, b] => equal(a, b),
        _ => false,
    }
}

fn identical(head: &FormulaHead, terms: &[Term]) -> bool
    ensures { result ≡ identical_lem head.now terms.now }
{
    match head {
        FormulaHead::Equal => is_pair(terms),
        _ => false,
    }
}

/// Whether the formula is an equation of identical terms.
#[tactic(auto, using(crate::proofs::JoiningFormulas::identity_is))]
fn is_identity(f: &Formula) -> bool
    ensures { result ≡ is_identity_lem f.now }
{
    identical(formula_head(f), formula_terms(f).as_slice())
}

/// The formula, or True in its place. Where nothing below it changed there is nothing but that.
fn true_or<L: Ledger>(
    alloc: Global,
    changed: bool,
    f: &Formula,
    steps: &mut Steps<L>,
) -> Result<Option<Formula>, AllocError>
    ensures { IfOk result (λ o. o ≡ true_or_lem changed f.now) }
{
    if is_identity(f) {
        return match make_formula(alloc, FormulaHead::True, &[], &[], steps) {
            Ok(truth) => Ok(Some(truth)),
            Err(MakeStop::IllSorted) => unreachable!(),
            Err(MakeStop::TooLarge) => unreachable!(),
            Err(MakeStop::Memory) => Err(AllocError),
        };
    }
    Ok(if changed { Some(f.share()?) } else { None })
}

/// The refusal of a formula of terms of wrong sorts.
fn ill_sorted() -> No
    ensures { result ≡ ill_sorted_lem }
{
    No {
        code: Code::IllSorted,
        shown: Shown::Nothing,
    }
}

/// The formula of this head, these terms and these formulas, unless it cannot be made.
#[tactic(auto, using(crate::proofs::JoiningFormulas::formula_made, crate::proofs::JoiningFormulas::formula_ill, crate::proofs::JoiningFormulas::formula_large))]
fn written<L: Ledger>(
    alloc: Global,
    head: &FormulaHead,
    terms: &[Term],
    kids: &[Formula],
    steps: &mut Steps<L>,
) -> Result<Formula, RuleStop>
    ensures exact { RuleGives (λ f. f) result (formula_written (Says head.now (plains terms.now) (formulas kids.now))) }
{
    match make_formula(alloc, head.share()?, terms, kids, steps) {
        Ok(f) => Ok(f),
        Err(MakeStop::Memory) => Err(RuleStop::Memory),
        Err(MakeStop::IllSorted) => Err(RuleStop::No(ill_sorted())),
        Err(MakeStop::TooLarge) => Err(RuleStop::No(too_large())),
    }
}

fn formula_over<L: Ledger>(
    alloc: Global,
    head: &FormulaHead,
    terms: &[Term],
    kids: &[Formula],
    steps: &mut Steps<L>,
) -> Result<Option<Formula>, RuleStop>
    ensures exact { RuleGives (λ o. o) result (formula_over_lem (Says head.now (plains terms.now) (formulas kids.now))) }
{
    let made = written(alloc, head, terms, kids, steps)?;
    Ok(true_or(alloc, true, &made, steps)?)
}

/// The formula over what its terms and formulas become.
#[tactic(auto, using(crate::proofs::JoiningFormulas::over_none, crate::proofs::JoiningFormulas::over_some))]
fn over_both<L: Ledger>(
    alloc: Global,
    f: &Formula,
    terms: Option<TermList>,
    kids: Option<FormulaList>,
    steps: &mut Steps<L>,
) -> Result<Option<Formula>, RuleStop>
    ensures exact { RuleGives (λ o. o) result (both_over f.now terms kids) }
{
    if terms.is_none() && kids.is_none() {
        return Ok(true_or(alloc, false, f, steps)?);
    }
    let terms = terms_or(alloc, terms, formula_terms(f).as_slice())?;
    let kids = formulas_or(alloc, kids, formula_kids(f).as_slice())?;
    formula_over(
        alloc,
        formula_head(f),
        terms.as_slice(),
        kids.as_slice(),
        steps,
    )
}

/// The formula, simplified from its leaves up, if anything changes. Operators on literals become literals where the result is
/// below 2^126 in absolute value; `len`, `rev` and `nth` of lists that are written out, `sum` of literals, and `++` with a left
/// side that is written out become what they are; and an equation with identical sides becomes True. What does not change is
/// shared. The one refusal is that a term or formula is too large.
#[cycle(formulas)]
#[tactic(auto, using(crate::proofs::JoiningFormulas::formula_is, crate::proofs::JoiningFormulas::formula_stops, crate::proofs::JoiningFormulas::formula_stops_below, floyd_assert_changes::proofs::Heights::formulas_below))]
pub fn simplify_formula<L: Ledger>(
    alloc: Global,
    f: &Formula,
    steps: &mut Steps<L>,
) -> Result<Option<Formula>, RuleStop>
    ensures exact { RuleGives (λ o. o) result (formula_simplified f.now) }
{
    let terms = simplify_terms(alloc, formula_terms(f).as_slice(), steps)?;
    let kids = simplify_formulas(alloc, formula_kids(f).as_slice(), steps)?;
    over_both(alloc, f, terms, kids, steps)
}

/// The formulas, simplified, if anything changes in some of them.
#[cycle(formulas)]
#[tactic(auto, using(crate::proofs::JoiningFormulas::formulas_start, crate::proofs::JoiningFormulas::formulas_stop, crate::proofs::JoiningFormulas::formulas_end, floyd_assert_changes::proofs::Heights::formula_height_at))]
pub fn simplify_formulas<L: Ledger>(
    alloc: Global,
    all: &[Formula],
    steps: &mut Steps<L>,
) -> Result<Option<FormulaList>, RuleStop>
    ensures exact { RuleGives (λ o. o) result (all_simplified all.now) }
{
    let mut made = Vec::with_capacity(alloc, all.len())?;
    let mut changed = false;
    'formulas: for formula in all {
        let new = simplify_formula(alloc, formula, steps)?;
        let simpler = push_formula(&mut made, new, formula)?;
        changed = changed || simpler;
    }
    if changed {
        Ok(Some(Items::from_vec(made)))
    } else {
        Ok(None)
    }
}
