ghost use Rattle.std.specs.Prelude.{◌≡◌, ◌↔◌, IfOk, IsTrue, Ok};
ghost use Rattle.floyd_goal.specs.Answers.{IsAnswer};
ghost use Rattle.floyd_shares.specs.JoinShare.{IsPlan, OfShares, Row, at_most_whole as at_most_whole_lem, of_sum as of_sum_lem, summed as summed_lem, with_sum as with_sum_lem};
ghost use Rattle.floyd_shares.specs.Shares.{with_share as with_share_lem};
ghost use Rattle.floyd_text.specs.Gives.{RuleGives};

use crate::shares::{share_of, with_share};
use floyd_assert::{Defs, Sep, SepList, SpecTable, equal_part};
use floyd_fieldpath::{literal, plus};
use floyd_goal_parts::{Args, Goal, GoalList, Plan, wrong_goal};
use floyd_goal_plans::{join_under, one_bound, pair_of, two_of};
use floyd_text::{RuleStop, Steps};
use floyd_tree::{FormulaList, Term};
use std::alloc::{AllocError, Global};
use std::sync::ledger::Ledger;

/// That the sum of the shares is at most 16.
fn at_most_whole<L: Ledger>(
    alloc: Global,
    sum: &Term,
    steps: &mut Steps<L>,
) -> Result<FormulaList, RuleStop>
    ensures exact { RuleGives (λ fs. fs) result (at_most_whole_lem sum.now) }
{
    let sixteen = literal(alloc, 16, steps)?;
    one_bound(alloc, sum, &sixteen, steps)
}

fn with_sum(alloc: Global, part: &Sep, sum: &Term, sides: FormulaList) -> Result<Plan, AllocError>
    ensures { IfOk result (λ plan. with_sum_lem part.now sum.now sides ≡ Ok plan) }
{
    let mut new = SepList::new(alloc);
    new.push(with_share(alloc, part, sum)?)?;
    Ok(Plan { sides, new })
}

/// The part with that share, which is one.
#[tactic(auto, using(floyd_fieldpath::proofs::WrittenLemmas::goes_on, floyd_fieldpath::proofs::WrittenLemmas::stops))]
fn of_sum<L: Ledger>(
    alloc: Global,
    part: &Sep,
    sum: &Term,
    steps: &mut Steps<L>,
) -> Result<Plan, RuleStop>
    ensures exact { RuleGives (λ plan. plan) result (of_sum_lem part.now sum.now) }
{
    let sides = at_most_whole(alloc, sum, steps)?;
    Ok(with_sum(alloc, part, sum, sides)?)
}

/// The part with the sum of the shares.
#[tactic(auto, using(floyd_fieldpath::proofs::WrittenLemmas::goes_on, floyd_fieldpath::proofs::WrittenLemmas::stops))]
fn with_both<L: Ledger>(
    alloc: Global,
    part: &Sep,
    a: &Term,
    b: &Term,
    steps: &mut Steps<L>,
) -> Result<Plan, RuleStop>
    ensures exact { RuleGives (λ plan. plan) result (summed_lem part.now a.now b.now) }
{
    let sum = plus(alloc, a, b, steps)?;
    of_sum(alloc, part, &sum, steps)
}

/// Whether the parts are equal once the second has that share.
fn is_same(alloc: Global, first: &Sep, second: &Sep, share: &Term) -> Result<bool, AllocError>
    ensures { IfOk result (λ yes. IsTrue yes ↔ (with_share_lem second.now share.now ≡ first.now)) }
{
    let moved = with_share(alloc, second, share)?;
    Ok(equal_part(&moved, first))
}

/// What becomes of both, where these are their shares.
fn of_shares<L: Ledger>(
    alloc: Global,
    first: &Sep,
    second: &Sep,
    a: &Term,
    b: &Term,
    steps: &mut Steps<L>,
) -> Result<Plan, RuleStop>
    ensures exact { IsAnswer (OfShares first.now second.now a.now b.now) result }
{
    let same = is_same(alloc, first, second, a)?;
    if same {
        with_both(alloc, first, a, b, steps)
    } else {
        Err(RuleStop::No(wrong_goal()))
    }
}

/// What becomes of both.
fn plan_of<L: Ledger>(
    alloc: Global,
    first: &Sep,
    second: &Sep,
    steps: &mut Steps<L>,
) -> Result<Plan, RuleStop>
    ensures exact { IsAnswer (IsPlan first.now second.now) result }
{
    let a = share_of(first)?;
    let b = share_of(second)?;
    of_shares(alloc, first, second, a, b, steps)
}

/// Makes one part of two objects, or of two paddings, that are equal but for their shares; its share is their sum, which is
/// to be 16 at most.
pub fn do_join_share<L: Ledger>(
    alloc: Global,
    goal: &Goal,
    args: &Args,
    _defs: &Defs,
    _specs: &SpecTable,
    steps: &mut Steps<L>,
) -> Result<GoalList, RuleStop>
    ensures exact { IsAnswer (Row goal.now args.now) result }
{
    let pair = pair_of(args);
    let (source, first, second) = two_of(goal, pair)?;
    let plan = plan_of(alloc, first, second, steps)?;
    join_under(alloc, goal, source, pair, plan, steps)
}
