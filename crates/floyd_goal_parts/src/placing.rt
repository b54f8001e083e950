ghost use Rattle.std.specs.Prelude.{◌≡◌, ◌∷◌, [], IfOk, Ok};
ghost use Rattle.floyd_goal.specs.Answers.{IsAnswer};
ghost use Rattle.floyd_goal_parts.specs.Rows.{IsPut, IsPutUnder, after_side as after_side_lem, put_under as put_under_lem};
ghost use Rattle.floyd_goal_parts.specs.Sources.{from_source as from_source_lem, in_place as in_place_lem, with_parts as with_parts_lem};

use crate::sources::{from_source, in_place, with_parts};
use floyd_assert::{Assertion, SepList};
use floyd_goal::{Context, Goal, GoalList, Pure, context_of, enriched, side_in};
use floyd_text::{RuleStop, Shared, Steps};
use floyd_tree::FormulaList;
use std::alloc::{AllocError, Global};
use std::sync::ledger::Ledger;

/// What a row makes of a part: side formulas, and the parts in its place.
pub struct Plan {
    pub sides: FormulaList,
    pub new: SepList,
}

impl Plan {
    /// The side formulas, and the parts.
    pub fn into_parts(self) -> (FormulaList, SepList)
        ensures { result ≡ (self.sides, self.new) }
    {
        let Plan { sides, new } = self;
        (sides, new)
    }
}

impl Drop for Plan {
    fn drop(self) {
        let Plan { sides, new } = self;
        drop(sides);
        drop(new);
    }
}

/// A list of one goal.
pub fn one_goal(alloc: Global, goal: Goal) -> Result<GoalList, AllocError>
    ensures { IfOk result (λ gs. gs ≡ goal ∷ []) }
{
    let mut goals = GoalList::new(alloc);
    goals.push(goal)?;
    Ok(goals)
}

/// The goal of the side formulas, if there is one, before the others.
pub fn after_side(
    alloc: Global,
    side: Option<Pure>,
    goals: GoalList,
) -> Result<GoalList, AllocError>
    ensures { IfOk result (λ gs. gs ≡ after_side_lem side goals) }
{
    match side {
        None => Ok(goals),
        Some(pure) => {
            let mut all = one_goal(alloc, Goal::Pure(pure))?;
            all.append(goals)?;
            Ok(all)
        }
    }
}

/// The one goal in that context, from that source. What it has besides is shared.
pub fn one_from(
    alloc: Global,
    goal: &Goal,
    context: Context,
    source: Assertion,
) -> Result<GoalList, AllocError>
    ensures { IfOk result (λ gs. gs ≡ from_source_lem goal.now context source ∷ []) }
{
    let source = Shared::new(alloc, source)?;
    one_goal(alloc, from_source(goal, context, source)?)
}

/// The goal in that context, with these parts in place of the one of that number.
fn replaced(
    alloc: Global,
    goal: &Goal,
    context: Context,
    source: &Assertion,
    number: u32,
    new: SepList,
) -> Result<GoalList, AllocError>
    ensures { IfOk result (λ gs. gs ≡ from_source_lem goal.now context (with_parts_lem source.now (in_place_lem number new source.now.parts)) ∷ []) }
{
    let parts = in_place(alloc, number, new, source.parts.as_slice())?;
    one_from(alloc, goal, context, with_parts(alloc, source, parts)?)
}

/// The goal with these parts in place of the one of that number in its source, which is this one.
pub fn put_in_place(
    alloc: Global,
    goal: &Goal,
    source: &Assertion,
    number: u32,
    new: SepList,
) -> Result<GoalList, AllocError>
    ensures { IfOk result (λ gs. IsPut goal.now number source.now new (Ok gs)) }
{
    let context = context_of(goal).after_command(alloc)?;
    replaced(alloc, goal, context, source, number, new)
}

/// The same where side formulas are true: their goal stands first.
pub fn put_under<L: Ledger>(
    alloc: Global,
    goal: &Goal,
    source: &Assertion,
    number: u32,
    plan: Plan,
    steps: &mut Steps<L>,
) -> Result<GoalList, RuleStop>
    ensures exact { IsAnswer (IsPutUnder goal.now number source.now plan) result }
{
    let (formulas, new) = plan.into_parts();
    let sides = side_in(alloc, context_of(goal), formulas.as_slice(), steps)?;
    let (kept, side) = sides.into_parts();
    let context = enriched(alloc, context_of(goal), kept)?;
    let goals = replaced(alloc, goal, context, source, number, new)?;
    Ok(after_side(alloc, side, goals)?)
}
