ghost use Rattle.std.specs.Prelude.{◌≡◌, ◌∷◌, [], IfOk};
ghost use Rattle.floyd_goal_parts.specs.Writing.{all_written, at_most as at_most_lem};
ghost use Rattle.floyd_text.specs.Gives.{RuleGives};

use floyd_goal_parts::at_most;
use floyd_text::{RuleStop, Steps};
use floyd_tree::{Formula, FormulaList, Term};
use std::alloc::{AllocError, Global};
use std::sync::ledger::Ledger;

/// Two formulas in a list.
pub fn two_formulas(alloc: Global, f: Formula, g: Formula) -> Result<FormulaList, AllocError>
    ensures { IfOk result (λ all. all ≡ f ∷ g ∷ []) }
{
    let mut all = FormulaList::new(alloc);
    all.push(f)?;
    all.push(g)?;
    Ok(all)
}

/// That a number is at most another, in a list.
#[tactic(auto, using(crate::proofs::WritingLemmas::one_stops, crate::proofs::WritingLemmas::one_fine))]
pub fn one_bound<L: Ledger>(
    alloc: Global,
    a: &Term,
    b: &Term,
    steps: &mut Steps<L>,
) -> Result<FormulaList, RuleStop>
    ensures exact { RuleGives (λ fs. fs) result (all_written (at_most_lem a.now b.now ∷ [])) }
{
    let bound = at_most(alloc, a, b, steps)?;
    let mut all = FormulaList::new(alloc);
    all.push(bound)?;
    Ok(all)
}

/// That a is at most b, and then that c is at most d, in a list.
#[tactic(auto, using(crate::proofs::WritingLemmas::two_first, crate::proofs::WritingLemmas::two_second, crate::proofs::WritingLemmas::two_fine))]
pub fn two_bounds<L: Ledger>(
    alloc: Global,
    a: &Term,
    b: &Term,
    c: &Term,
    d: &Term,
    steps: &mut Steps<L>,
) -> Result<FormulaList, RuleStop>
    ensures exact { RuleGives (λ fs. fs) result (all_written (at_most_lem a.now b.now ∷ at_most_lem c.now d.now ∷ [])) }
{
    let first = at_most(alloc, a, b, steps)?;
    let second = at_most(alloc, c, d, steps)?;
    Ok(two_formulas(alloc, first, second)?)
}
