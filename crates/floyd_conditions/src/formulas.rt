ghost use Rattle.std.specs.Prelude.{◌≡◌};
ghost use Rattle.floyd_conditions.specs.Conditions.{both_branches as branches_lem, equality as equality_lem, less as less_lem};
ghost use Rattle.floyd_symexpr_rows.specs.Formulas.{at_most as at_most_lem, different as different_lem, equal as equal_lem, said as said_lem};
ghost use Rattle.floyd_text.specs.Gives.{RuleGives};
ghost use Rattle.floyd_tree.specs.Formulas.{Says, formulas};
ghost use Rattle.floyd_tree.specs.Plain.{plains};

use crate::branches::Branches;
use floyd_fieldpath::{literal, plus};
use floyd_folding::too_large;
use floyd_text::{RuleStop, Steps};
use floyd_tree::{Formula, FormulaHead, MakeStop, Term, make_formula};
use std::alloc::Global;
use std::sync::ledger::Ledger;

/// The formula of this head, these terms and these kids, unless it is beyond the limits.
fn said<L: Ledger>(
    alloc: Global,
    head: FormulaHead,
    terms: &[Term],
    kids: &[Formula],
    steps: &mut Steps<L>,
) -> Result<Formula, RuleStop>
    ensures exact { RuleGives (λ f. f) result (said_lem (Says head (plains terms.now) (formulas kids.now))) }
{
    match make_formula(alloc, head, terms, kids, steps) {
        Ok(f) => Ok(f),
        Err(MakeStop::Memory) => Err(RuleStop::Memory),
        Err(MakeStop::IllSorted) => Err(RuleStop::No(too_large())),
        Err(MakeStop::TooLarge) => Err(RuleStop::No(too_large())),
    }
}

/// `a = b`.
pub fn equal<L: Ledger>(
    alloc: Global,
    a: &Term,
    b: &Term,
    steps: &mut Steps<L>,
) -> Result<Formula, RuleStop>
    ensures exact { RuleGives (λ f. f) result (said_lem (equal_lem a.now b.now)) }
{
    let terms = [a.share()?, b.share()?];
    said(alloc, FormulaHead::Equal, &terms, &[], steps)
}

fn at_most<L: Ledger>(
    alloc: Global,
    a: &Term,
    b: &Term,
    steps: &mut Steps<L>,
) -> Result<Formula, RuleStop>
    ensures exact { RuleGives (λ f. f) result (said_lem (at_most_lem a.now b.now)) }
{
    let terms = [a.share()?, b.share()?];
    said(alloc, FormulaHead::AtMost, &terms, &[], steps)
}

/// `a <> b`.
#[tactic(auto, using(floyd_symexpr_rows::proofs::PartLemmas::equation_stops, floyd_symexpr_rows::proofs::PartLemmas::absurd_stops, floyd_symexpr_rows::proofs::PartLemmas::different_gives))]
pub fn different<L: Ledger>(
    alloc: Global,
    a: &Term,
    b: &Term,
    steps: &mut Steps<L>,
) -> Result<Formula, RuleStop>
    ensures exact { RuleGives (λ f. f) result (said_lem (different_lem a.now b.now)) }
{
    let terms = [a.share()?, b.share()?];
    let equation = said(alloc, FormulaHead::Equal, &terms, &[], steps)?;
    let absurd = said(alloc, FormulaHead::False, &[], &[], steps)?;
    let kids = [equation, absurd];
    said(alloc, FormulaHead::Implies, &[], &kids, steps)
}

/// Where two terms are equal, and where they are not.
#[tactic(auto, using(floyd_symexpr_rows::proofs::SayingLemmas::goes_on, floyd_symexpr_rows::proofs::SayingLemmas::stops))]
pub(crate) fn equality<L: Ledger>(
    alloc: Global,
    a: &Term,
    b: &Term,
    steps: &mut Steps<L>,
) -> Result<Branches, RuleStop>
    ensures exact { RuleGives (λ x. x) result (equality_lem a.now b.now) }
{
    let met = equal(alloc, a, b, steps)?;
    let unmet = different(alloc, a, b, steps)?;
    Ok(Branches { met, unmet })
}

/// That a number is at most another, and that the second is at most the third.
#[tactic(auto, using(floyd_symexpr_rows::proofs::SayingLemmas::goes_on, floyd_symexpr_rows::proofs::SayingLemmas::stops))]
fn ordered<L: Ledger>(
    alloc: Global,
    more: &Term,
    a: &Term,
    b: &Term,
    steps: &mut Steps<L>,
) -> Result<Branches, RuleStop>
    ensures exact { RuleGives (λ x. x) result (branches_lem (at_most_lem more.now b.now) (at_most_lem b.now a.now)) }
{
    let met = at_most(alloc, more, b, steps)?;
    let unmet = at_most(alloc, b, a, steps)?;
    Ok(Branches { met, unmet })
}

/// Where a number is below another, and where it is not.
#[tactic(auto, using(floyd_symexpr_rows::proofs::SayingLemmas::goes_on, floyd_symexpr_rows::proofs::SayingLemmas::stops))]
pub(crate) fn less<L: Ledger>(
    alloc: Global,
    a: &Term,
    b: &Term,
    steps: &mut Steps<L>,
) -> Result<Branches, RuleStop>
    ensures exact { RuleGives (λ x. x) result (less_lem a.now b.now) }
{
    let one = literal(alloc, 1, steps)?;
    let more = plus(alloc, a, &one, steps)?;
    ordered(alloc, &more, a, b, steps)
}
