ghost use Rattle.std.specs.Prelude.{◌≡◌, [], ◌∷◌, ◌++◌, IfOk, OnOk};
ghost use Rattle.floyd_stub_assert.specs.declared.formula.Formula.{Hasty};
ghost use Rattle.floyd_stub_goal.specs.Sides.{kept, conjunction, side_goals, with_hypotheses};
ghost use Rattle.floyd_stub_goal.specs.declared.goal.Goal.TheVariants.{Pure as PureGoal};
ghost use Rattle.floyd_stub_forward.specs.Forward.{forward_return as forward_return_lem};
ghost use Rattle.floyd_stub_forward.specs.ForwardClauses.{with_equation, entailment as entailment_lem, post_goal as post_goal_lem};

use crate::discarding::discard;
use floyd_ctypes::CType;
use floyd_stub_assert::{Formula, Term, share_formulas};
use floyd_stub_goal::{Context, Goal, GoalList, Pure, Return, Run, is_typed};
use sqlite_items::Items;
use std::alloc::{AllocError, Global};

/// The value is one of the result's type, and the postcondition holds of it.
pub fn forward_return(alloc: Global, run: Run, value: Term) -> Result<GoalList, AllocError>
    ensures { IfOk result (λ goals. goals ≡ forward_return_lem run.context run.source run.exits value) }
{
    match side(alloc, &run.context, &run.exits.ret.result, &value) {
        Ok(goals) => with_post(alloc, goals, run, value),
        Err(stop) => {
            discard(run);
            Err(stop)
        }
    }
}

/// With the goal that the postcondition holds of the value.
fn with_post(
    alloc: Global,
    mut goals: GoalList,
    run: Run,
    value: Term,
) -> Result<GoalList, AllocError>
    ensures { IfOk result (λ all. all ≡ goals ++ post_goal_lem run value ∷ []) }
{
    goals.push(post_goal(alloc, run, value)?)?;
    Ok(goals)
}

/// The goal that a value is one of that type, unless this is true at once.
fn side(alloc: Global, context: &Context, t: &CType, value: &Term) -> Result<GoalList, AllocError>
    ensures { IfOk result (λ goals. goals ≡ side_goals context.now (conjunction (kept (Hasty t.now value.now ∷ [])))) }
{
    let mut goals = Items::new(alloc);
    if !is_typed(t, value) {
        goals.push(typed_goal(alloc, context, t, value)?)?;
    }
    Ok(goals)
}

fn typed_goal(alloc: Global, context: &Context, t: &CType, value: &Term) -> Result<Goal, AllocError>
    ensures { IfOk result (λ goal. goal ≡ PureGoal (record { context = context.now; target = Hasty t.now value.now })) }
{
    let target = typed(alloc, t, value)?;
    let hypotheses = share_formulas(alloc, &context.hypotheses)?;
    Ok(Goal::Pure(Pure {
        context: Context { hypotheses },
        target,
    }))
}

/// That a value is one of that type.
fn typed(alloc: Global, t: &CType, value: &Term) -> Result<Formula, AllocError>
    ensures { IfOk result (λ f. f ≡ Hasty t.now value.now) }
{
    let t = t.share(alloc)?;
    Ok(Formula::Hasty(t, value.share()?))
}

/// The goal that the postcondition holds of the value.
fn post_goal(alloc: Global, mut run: Run, value: Term) -> Result<Goal, AllocError>
    ensures { IfOk result (λ goal. goal ≡ post_goal_lem run value) }
{
    match add_claims(alloc, &mut run, value) {
        Ok(()) => Ok(Goal::Entail(run.into_post())),
        Err(stop) => {
            discard(run);
            Err(stop)
        }
    }
}

/// What the goal of the postcondition has besides: as a hypothesis that the value has its type, and the value's equation.
fn add_claims(alloc: Global, run: &mut Run, value: Term) -> Result<(), AllocError>
    ensures { OnOk result (entailment_lem run.new ≡ post_goal_lem run.old value) }
{
    add_side(alloc, &mut run.context, &run.exits.ret.result, &value)?;
    add_equation(&mut run.exits.ret, value)
}

/// What is kept of the claim that a value is one of that type becomes a hypothesis.
fn add_side(alloc: Global, context: &mut Context, t: &CType, value: &Term) -> Result<(), AllocError>
    ensures { OnOk result (context.new ≡ with_hypotheses context.old (kept (Hasty t.now value.now ∷ []))) }
{
    if !is_typed(t, value) {
        context.hypotheses.push(typed(alloc, t, value)?)?;
    }
    Ok(())
}

fn add_equation(ret: &mut Return, value: Term) -> Result<(), AllocError>
    ensures { OnOk result (ret.new ≡ with_equation ret.old value) }
{
    let wanted = ret.value.share()?;
    ret.post.prop.push(Formula::Equal(value, wanted))
}
