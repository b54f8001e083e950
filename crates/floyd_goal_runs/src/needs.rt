ghost use Rattle.std.specs.Prelude.{◌≡◌, IfOk, map};
ghost use Rattle.floyd_goal.specs.Answers.{IsAnswer};
ghost use Rattle.floyd_goal_runs.specs.Needing.{Under, needed as needed_lem, valid_at as valid_at_lem, valid_goal as valid_goal_lem};

use crate::contexts::share_context;
use floyd_assert::{Assertion, BinderList, LocalList, Sep, SepList};
use floyd_goal_parts::{Context, Entail, Goal, GoalList, Pure, after_side, enriched, side_in};
use floyd_text::{RuleStop, Shared, Steps};
use floyd_tree::{Formula, FormulaList, Term};
use std::alloc::{AllocError, Global};
use std::sync::ledger::Ledger;

/// The goal of side formulas, if there is one, and the context of the goals behind it.
pub fn under_sides<L: Ledger>(
    alloc: Global,
    context: &Context,
    formulas: &[Formula],
    steps: &mut Steps<L>,
) -> Result<(Option<Pure>, Context), RuleStop>
    ensures exact { IsAnswer (Under context.now formulas.now) result }
{
    let sides = side_in(alloc, context, formulas, steps)?;
    let (kept, side) = sides.into_parts();
    let context = enriched(alloc, context, kept)?;
    Ok((side, context))
}

/// `SEP (valid(v); TT)`
fn valid_at(alloc: Global, v: &Term) -> Result<Assertion, AllocError>
    ensures { IfOk result (λ a. a ≡ valid_at_lem v.now) }
{
    let mut parts = SepList::new(alloc);
    parts.push(Sep::Valid(v.share()?))?;
    parts.push(Sep::Anything)?;
    Ok(Assertion {
        existentials: BinderList::new(alloc),
        props: FormulaList::new(alloc),
        locals: LocalList::new(alloc),
        parts,
    })
}

fn valid_goal(
    alloc: Global,
    context: &Context,
    source: &Shared<Assertion>,
    v: &Term,
) -> Result<Goal, AllocError>
    ensures { IfOk result (λ g. g ≡ valid_goal_lem context.now source.now v.now) }
{
    let context = share_context(alloc, context)?;
    let source = source.share()?;
    let target = Shared::new(alloc, valid_at(alloc, v)?)?;
    Ok(Goal::Entail(Entail {
        context,
        source,
        target,
    }))
}

/// The goals that terms are valid.
fn valid_goals(
    alloc: Global,
    context: &Context,
    source: &Shared<Assertion>,
    valid: &[Term],
) -> Result<GoalList, AllocError>
    ensures { IfOk result (λ gs. gs ≡ map (valid_goal_lem context.now source.now) valid.now) }
{
    let mut goals = GoalList::new(alloc);
    'terms: for v in valid {
        goals.push(valid_goal(alloc, context, source, v)?)?;
    }
    Ok(goals)
}

/// The goal of side formulas, if there is one, then those that terms are valid, and then the others.
pub fn needed(
    alloc: Global,
    source: &Shared<Assertion>,
    valid: &[Term],
    side: Option<Pure>,
    context: &Context,
    goals: GoalList,
) -> Result<GoalList, AllocError>
    ensures { IfOk result (λ gs. gs ≡ needed_lem source.now valid.now (side, context.now) goals) }
{
    let mut all = valid_goals(alloc, context, source, valid)?;
    all.append(goals)?;
    after_side(alloc, side, all)
}
