ghost use Rattle.std.specs.Prelude.{◌≡◌, IfOk, Ok};
ghost use Rattle.floyd_goal.specs.Answers.{IsAnswer};
ghost use Rattle.floyd_shares.specs.SplitShare.{Row, both_shares as both_shares_lem, bounds as bounds_lem, bounds_by as bounds_by_lem, halves as halves_lem, split as split_lem, split_part as split_part_lem, with_shares as with_shares_lem};
ghost use Rattle.floyd_text.specs.Gives.{RuleGives};

use crate::shares::{share_of, with_share};
use floyd_assert::{Defs, Sep, SepList, SpecTable};
use floyd_fieldpath::{literal, plus};
use floyd_folding::folded;
use floyd_goal_parts::{Args, Goal, GoalList, Plan, part_number, part_of, put_under};
use floyd_goal_plans::{first_term, two_bounds};
use floyd_text::{RuleStop, Steps};
use floyd_tree::{FormulaList, Operator, Term, TermList};
use std::alloc::{AllocError, Global};
use std::sync::ledger::Ledger;

/// That s and what is left of the share are at least one.
#[tactic(auto, using(floyd_fieldpath::proofs::WrittenLemmas::goes_on, floyd_fieldpath::proofs::WrittenLemmas::stops))]
fn bounds_by<L: Ledger>(
    alloc: Global,
    one: &Term,
    s: &Term,
    share: &Term,
    steps: &mut Steps<L>,
) -> Result<FormulaList, RuleStop>
    ensures exact { RuleGives (λ fs. fs) result (bounds_by_lem one.now s.now share.now) }
{
    let next = plus(alloc, s, one, steps)?;
    two_bounds(alloc, one, s, &next, share, steps)
}

fn bounds<L: Ledger>(
    alloc: Global,
    s: &Term,
    share: &Term,
    steps: &mut Steps<L>,
) -> Result<FormulaList, RuleStop>
    ensures exact { RuleGives (λ fs. fs) result (bounds_lem s.now share.now) }
{
    let one = literal(alloc, 1, steps)?;
    bounds_by(alloc, &one, s, share, steps)
}

/// The part with one share, and with another.
fn both_shares(alloc: Global, part: &Sep, s: &Term, rest: &Term) -> Result<SepList, AllocError>
    ensures { IfOk result (λ ps. both_shares_lem part.now s.now rest.now ≡ Ok ps) }
{
    let mut parts = SepList::new(alloc);
    parts.push(with_share(alloc, part, s)?)?;
    parts.push(with_share(alloc, part, rest)?)?;
    Ok(parts)
}

/// The part with s, and with the share less s.
#[tactic(auto, using(floyd_fieldpath::proofs::WrittenLemmas::goes_on, floyd_fieldpath::proofs::WrittenLemmas::stops))]
fn halves<L: Ledger>(
    alloc: Global,
    part: &Sep,
    s: &Term,
    share: &Term,
    steps: &mut Steps<L>,
) -> Result<SepList, RuleStop>
    ensures exact { RuleGives (λ ps. ps) result (halves_lem part.now s.now share.now) }
{
    let rest = folded(alloc, Operator::Sub, share, s, steps)?;
    Ok(both_shares(alloc, part, s, &rest)?)
}

/// The two parts in place of one that has this share, and their side formulas.
fn with_shares<L: Ledger>(
    alloc: Global,
    s: &Term,
    part: &Sep,
    share: &Term,
    steps: &mut Steps<L>,
) -> Result<Plan, RuleStop>
    ensures exact { RuleGives (λ plan. plan) result (with_shares_lem s.now part.now share.now) }
{
    let sides = bounds(alloc, s, share, steps)?;
    let new = halves(alloc, part, s, share, steps)?;
    Ok(Plan { sides, new })
}

#[tactic(auto, using(floyd_fieldpath::proofs::WrittenLemmas::goes_on, floyd_fieldpath::proofs::WrittenLemmas::stops))]
fn split_part<L: Ledger>(
    alloc: Global,
    part: &Sep,
    s: &Term,
    steps: &mut Steps<L>,
) -> Result<Plan, RuleStop>
    ensures exact { RuleGives (λ plan. plan) result (split_part_lem part.now s.now) }
{
    let share = share_of(part)?;
    with_shares(alloc, s, part, share, steps)
}

/// The two parts in place of one, and their side formulas.
#[tactic(auto, using(floyd_fieldpath::proofs::WrittenLemmas::goes_on, floyd_fieldpath::proofs::WrittenLemmas::stops))]
fn split<L: Ledger>(
    alloc: Global,
    terms: &TermList,
    part: &Sep,
    steps: &mut Steps<L>,
) -> Result<Plan, RuleStop>
    ensures exact { RuleGives (λ plan. plan) result (split_lem terms.now part.now) }
{
    let s = first_term(terms)?;
    split_part(alloc, part, s, steps)
}

/// Makes two parts of an object or of padding, the first with the given share, the second with what is left of its own.
#[tactic(auto, using(floyd_goal_parts::proofs::RowLemmas::row_stops, floyd_goal_parts::proofs::RowLemmas::under_stops, floyd_goal_parts::proofs::RowLemmas::under_goes))]
pub fn do_split_share<L: Ledger>(
    alloc: Global,
    goal: &Goal,
    args: &Args,
    _defs: &Defs,
    _specs: &SpecTable,
    steps: &mut Steps<L>,
) -> Result<GoalList, RuleStop>
    ensures exact { IsAnswer (Row goal.now args.now) result }
{
    let number = part_number(args.target);
    let (source, part) = part_of(goal, number)?;
    let plan = split(alloc, &args.terms, part, steps)?;
    put_under(alloc, goal, source, number, plan, steps)
}
