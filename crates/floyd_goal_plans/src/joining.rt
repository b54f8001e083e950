ghost use Rattle.std.specs.Prelude.{◌≡◌, IfOk, Ok};
ghost use Rattle.floyd_goal.specs.Answers.{IsAnswer};
ghost use Rattle.floyd_goal_plans.specs.Joining.{IsJoined, IsJoinedUnder, joined as joined_lem, pair_of as pair_of_lem, two_of as two_of_lem, with_second as with_second_lem};
ghost use Rattle.floyd_goal_parts.specs.Sources.{part_at as part_at_lem};
ghost use Rattle.floyd_text.specs.Gives.{RuleGives};

use floyd_assert::{Assertion, Sep, SepList};
use floyd_goal_parts::{
    Args, Goal, GoalList, Plan, after_side, context_of, enriched, in_place, one_from, part_at,
    part_number, part_of, side_in, with_parts, wrong_goal,
};
use floyd_text::{RuleStop, Steps};
use std::alloc::{AllocError, Global};
use std::sync::ledger::Ledger;

/// The numbers of two parts.
#[derive(Clone, Copy)]
pub struct Pair {
    pub first: u32,
    pub second: u32,
}

/// The numbers of the two parts that a command is given.
pub fn pair_of(args: &Args) -> Pair
    ensures { result ≡ pair_of_lem args.now }
{
    Pair {
        first: part_number(args.target),
        second: args.other,
    }
}

/// The source, its part of the first number, and that of the second, which is another one.
fn with_second<'a>(
    pair: Pair,
    source: &'a Assertion,
    first: &'a Sep,
) -> Result<(&'a Assertion, &'a Sep, &'a Sep), RuleStop>
    ensures exact { RuleGives (λ t. (t.0.now, t.1.now, t.2.now)) result (with_second_lem pair (source.now, first.now) (part_at_lem source.now.parts pair.second)) }
{
    match part_at(source.parts.as_slice(), pair.second) {
        Ok(second) => {
            if pair.first == pair.second {
                Err(RuleStop::No(wrong_goal()))
            } else {
                Ok((source, first, second))
            }
        }
        Err(stop) => Err(stop),
    }
}

/// The source of a goal about memory, and its parts of these numbers, which differ.
pub fn two_of(goal: &Goal, pair: Pair) -> Result<(&Assertion, &Sep, &Sep), RuleStop>
    ensures exact { RuleGives (λ t. (t.0.now, t.1.now, t.2.now)) result (two_of_lem goal.now pair) }
{
    match part_of(goal, pair.first) {
        Ok((source, first)) => with_second(pair, source, first),
        Err(stop) => Err(stop),
    }
}

/// The source with these parts in place of the first one, and without the second one.
pub fn joined(
    alloc: Global,
    pair: Pair,
    new: SepList,
    source: &Assertion,
) -> Result<Assertion, AllocError>
    ensures { IfOk result (λ a. a ≡ joined_lem pair new source.now) }
{
    let parts = in_place(alloc, pair.first, new, source.parts.as_slice())?;
    let parts = in_place(alloc, pair.second, SepList::new(alloc), parts.as_slice())?;
    with_parts(alloc, source, parts)
}

/// The goal with these parts in place of both.
pub fn put_joined(
    alloc: Global,
    goal: &Goal,
    source: &Assertion,
    pair: Pair,
    new: SepList,
) -> Result<GoalList, AllocError>
    ensures { IfOk result (λ gs. IsJoined goal.now pair source.now new (Ok gs)) }
{
    let context = context_of(goal).after_command(alloc)?;
    one_from(alloc, goal, context, joined(alloc, pair, new, source)?)
}

/// The same where side formulas are true: their goal stands first.
pub fn join_under<L: Ledger>(
    alloc: Global,
    goal: &Goal,
    source: &Assertion,
    pair: Pair,
    plan: Plan,
    steps: &mut Steps<L>,
) -> Result<GoalList, RuleStop>
    ensures exact { IsAnswer (IsJoinedUnder goal.now pair source.now plan) result }
{
    let (formulas, new) = plan.into_parts();
    let sides = side_in(alloc, context_of(goal), formulas.as_slice(), steps)?;
    let (kept, side) = sides.into_parts();
    let context = enriched(alloc, context_of(goal), kept)?;
    let goals = one_from(alloc, goal, context, joined(alloc, pair, new, source)?)?;
    Ok(after_side(alloc, side, goals)?)
}
