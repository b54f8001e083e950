ghost use Rattle.std.specs.Prelude.{◌≡◌, [], ◌∷◌};
ghost use Rattle.floyd_symexpr_rows.specs.Formulas.{said as said_lem, saying};
ghost use Rattle.floyd_text.specs.Gives.{RuleGives};
ghost use Rattle.floyd_tree.specs.Formulas.{Says, NoFormula};
ghost use Rattle.floyd_tree.specs.Plain.{plains};

use floyd_goal_parts::too_large;
use floyd_text::{RuleStop, Steps};
use floyd_tree::{Formula, FormulaHead, FormulaList, MakeStop, Term, make_formula};
use std::alloc::Global;
use std::sync::ledger::Ledger;

/// The formula of this head and these terms, unless it is beyond the limits.
fn said<L: Ledger>(
    alloc: Global,
    head: FormulaHead,
    terms: &[Term],
    steps: &mut Steps<L>,
) -> Result<Formula, RuleStop>
    ensures exact { RuleGives (λ f. f) result (said_lem (Says head (plains terms.now) NoFormula)) }
{
    match make_formula(alloc, head, terms, &[], steps) {
        Ok(f) => Ok(f),
        Err(MakeStop::Memory) => Err(RuleStop::Memory),
        Err(MakeStop::IllSorted) => Err(RuleStop::No(too_large())),
        Err(MakeStop::TooLarge) => Err(RuleStop::No(too_large())),
    }
}

/// Puts the formula of this head and these terms behind others.
pub fn say<L: Ledger>(
    alloc: Global,
    head: FormulaHead,
    terms: &[Term],
    all: &mut FormulaList,
    steps: &mut Steps<L>,
) -> Result<(), RuleStop>
    ensures exact { RuleGives (λ u. all.new) result (saying all.old (Says head (plains terms.now) NoFormula ∷ [])) }
{
    let f = said(alloc, head, terms, steps)?;
    all.push(f)?;
    Ok(())
}
