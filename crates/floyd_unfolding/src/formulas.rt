ghost use Rattle.std.specs.Prelude.{◌≡◌};
ghost use Rattle.floyd_fieldpath.specs.Written.{ill_sorted as ill_sorted_lem};
ghost use Rattle.floyd_simplifying.specs.Simplified.{formula_written};
ghost use Rattle.floyd_text.specs.Gives.{RuleGives};
ghost use Rattle.floyd_tree.specs.Formulas.{Says, formulas};
ghost use Rattle.floyd_tree.specs.Plain.{plains};
ghost use Rattle.floyd_unfolding.specs.Calls.{TakesTerms};
ghost use Rattle.floyd_unfolding.specs.Unfolded.{formula_unfolded};
ghost use Rattle.floyd_unfolding.specs.UnfoldedClauses.{all_unfolded, both_over};

use crate::changes::{formulas_or, push_formula, terms_or};
use crate::terms::unfold_terms;
use floyd_assert_trees::Fun;
use floyd_folding::too_large;
use floyd_text::{Code, Name, No, RuleStop, Shown, Steps};
use floyd_tree::{
    Formula, FormulaHead, FormulaList, MakeStop, Term, TermList, formula_head, formula_kids,
    formula_terms, make_formula,
};
use sqlite_items::Items;
use std::alloc::Global;
use std::sync::ledger::Ledger;

/// The refusal of a formula of terms of wrong sorts.
fn ill_sorted() -> No
    ensures { result ≡ ill_sorted_lem }
{
    No {
        code: Code::IllSorted,
        shown: Shown::Nothing,
    }
}

/// The formula of this head, these terms and these formulas, unless it cannot be made.
#[tactic(auto, using(floyd_simplifying::proofs::JoiningFormulas::formula_made, floyd_simplifying::proofs::JoiningFormulas::formula_ill, floyd_simplifying::proofs::JoiningFormulas::formula_large))]
fn written<L: Ledger>(
    alloc: Global,
    head: &FormulaHead,
    terms: &[Term],
    kids: &[Formula],
    steps: &mut Steps<L>,
) -> Result<Formula, RuleStop>
    ensures exact { RuleGives (λ f. f) result (formula_written (Says head.now (plains terms.now) (formulas kids.now))) }
{
    match make_formula(alloc, head.share()?, terms, kids, steps) {
        Ok(f) => Ok(f),
        Err(MakeStop::Memory) => Err(RuleStop::Memory),
        Err(MakeStop::IllSorted) => Err(RuleStop::No(ill_sorted())),
        Err(MakeStop::TooLarge) => Err(RuleStop::No(too_large())),
    }
}

/// The formula over what its terms and formulas become.
#[tactic(auto, using(crate::proofs::JoiningFormulas::over_none, crate::proofs::JoiningFormulas::over_some, crate::proofs::JoiningFormulas::over_stops))]
fn over_both<L: Ledger>(
    alloc: Global,
    f: &Formula,
    terms: Option<TermList>,
    kids: Option<FormulaList>,
    steps: &mut Steps<L>,
) -> Result<Option<Formula>, RuleStop>
    ensures exact { RuleGives (λ o. o) result (both_over f.now terms kids) }
{
    if terms.is_none() && kids.is_none() {
        return Ok(None);
    }
    let terms = terms_or(alloc, terms, formula_terms(f).as_slice())?;
    let kids = formulas_or(alloc, kids, formula_kids(f).as_slice())?;
    Ok(Some(written(
        alloc,
        formula_head(f),
        terms.as_slice(),
        kids.as_slice(),
        steps,
    )?))
}

/// The formula with what each call of the FUN means in its place, from the leaves up, if anything changes. What does not change
/// is shared.
#[cycle(formulas)]
#[tactic(auto, using(crate::proofs::JoiningFormulas::formula_is, crate::proofs::JoiningFormulas::formula_stops, crate::proofs::JoiningFormulas::formula_stops_below, floyd_assert_changes::proofs::Heights::formulas_below))]
pub fn unfold_formula<L: Ledger>(
    alloc: Global,
    name: &Name,
    own: &Fun,
    f: &Formula,
    steps: &mut Steps<L>,
) -> Result<Option<Formula>, RuleStop>
    requires takes { TakesTerms own.now }
    ensures exact { RuleGives (λ o. o) result (formula_unfolded name.now own.now f.now) }
{
    let terms = unfold_terms(alloc, name, own, formula_terms(f).as_slice(), steps)?;
    let kids = unfold_formulas(alloc, name, own, formula_kids(f).as_slice(), steps)?;
    over_both(alloc, f, terms, kids, steps)
}

/// The formulas with what each call of the FUN means in its place, if anything changes in some of them.
#[cycle(formulas)]
#[tactic(auto, using(crate::proofs::JoiningFormulas::formulas_start, crate::proofs::JoiningFormulas::formulas_stop, crate::proofs::JoiningFormulas::formulas_end, floyd_assert_changes::proofs::Heights::formula_height_at))]
pub fn unfold_formulas<L: Ledger>(
    alloc: Global,
    name: &Name,
    own: &Fun,
    all: &[Formula],
    steps: &mut Steps<L>,
) -> Result<Option<FormulaList>, RuleStop>
    requires takes { TakesTerms own.now }
    ensures exact { RuleGives (λ o. o) result (all_unfolded name.now own.now all.now) }
{
    let mut made = Vec::with_capacity(alloc, all.len())?;
    let mut changed = false;
    'formulas: for formula in all {
        let new = unfold_formula(alloc, name, own, formula, steps)?;
        let other = push_formula(&mut made, new, formula)?;
        changed = changed || other;
    }
    if changed {
        Ok(Some(Items::from_vec(made)))
    } else {
        Ok(None)
    }
}
