ghost use Rattle.std.specs.Prelude.{◌≡◌, IfOk, OnOk};
ghost use Rattle.floyd_goal_formulas.specs.Keeping.{Kept, and, before, too_large as too_large_lem};
ghost use Rattle.floyd_goal_formulas.specs.KeepingClauses.{IsKept, conjoined, limited};
ghost use Rattle.floyd_text.specs.Gives.{RuleGives};

use crate::dropping::drops;
use floyd_text::{Code, No, RuleStop, Shown, Steps};
use floyd_tree::{Formula, FormulaHead, FormulaList, MakeStop, make_formula};
use std::alloc::{AllocError, Global};
use std::sync::ledger::Ledger;

/// The refusal of a term or formula that is beyond the limits.
pub fn too_large() -> No
    ensures { result ≡ too_large_lem }
{
    No {
        code: Code::TermTooLarge,
        shown: Shown::Nothing,
    }
}

/// Adds the formula, if it needs a proof under these hypotheses.
fn keep(hypotheses: &[Formula], formula: &Formula, all: &mut FormulaList) -> Result<(), AllocError>
    ensures { OnOk result (IsKept hypotheses.now formula.now all.old all.new) }
{
    if drops(hypotheses, formula) {
        return Ok(());
    }
    all.push(formula.share()?)?;
    Ok(())
}

/// The formulas that need a proof under these hypotheses.
pub fn kept(
    alloc: Global,
    hypotheses: &[Formula],
    formulas: &[Formula],
) -> Result<FormulaList, AllocError>
    ensures { IfOk result (λ kept. Kept hypotheses.now formulas.now kept) }
{
    let mut all = FormulaList::new(alloc);
    'formulas: for formula in formulas {
        keep(hypotheses, formula, &mut all)?;
    }
    Ok(all)
}

/// The conjunction of two formulas.
pub fn both<L: Ledger>(
    alloc: Global,
    left: Formula,
    right: Formula,
    steps: &mut Steps<L>,
) -> Result<Formula, RuleStop>
    ensures { RuleGives (λ f. f) result (limited (and left right)) }
{
    let kids = [left, right];
    match make_formula(alloc, FormulaHead::And, &[], &kids, steps) {
        Ok(formula) => Ok(formula),
        Err(MakeStop::Memory) => Err(RuleStop::Memory),
        Err(_) => Err(RuleStop::No(too_large())),
    }
}

/// The formula before those that stand behind it.
fn joined<L: Ledger>(
    alloc: Global,
    formula: Formula,
    behind: Option<Formula>,
    steps: &mut Steps<L>,
) -> Result<Formula, RuleStop>
    ensures { RuleGives (λ f. f) result (limited (before formula behind)) }
{
    match behind {
        None => Ok(formula),
        Some(behind) => both(alloc, formula, behind, steps),
    }
}

/// The formulas in one, nested to the right.
pub fn conjunction<L: Ledger>(
    alloc: Global,
    formulas: &[Formula],
    steps: &mut Steps<L>,
) -> Result<Option<Formula>, RuleStop>
    ensures { RuleGives (λ f. f) result (conjoined formulas.now) }
{
    let mut all = None;
    'formulas: for i in (0..formulas.len()).rev() {
        match joined(alloc, formulas[i].share()?, all, steps) {
            Ok(formula) => all = Some(formula),
            Err(stop) => return Err(stop),
        }
    }
    Ok(all)
}
