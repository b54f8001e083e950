ghost use Rattle.std.specs.Prelude.{◌≡◌, ◌∷◌, [], IfOk, None, Some};
ghost use Rattle.std.specs.Option.{option_copied};
ghost use Rattle.floyd_forward.specs.Forward.{Named};
ghost use Rattle.floyd_forward.specs.Return.{GivesBack, Returns, given_back as given_back_lem, result_needs as result_needs_lem, result_of as result_of_lem};
ghost use Rattle.floyd_goal.specs.Answers.{IsAnswer};
ghost use Rattle.floyd_goal_parts.specs.Sources.{with_parts as with_parts_lem};
ghost use Rattle.floyd_goal_trees.specs.declared.goal.Goal.TheVariants as g;
ghost use Rattle.floyd_text.specs.Gives.{RuleGives};

use crate::blocks::without_blocks;
use crate::posts::returned;
use crate::running::Running;
use floyd_assert::{Assertion, SepList, share_formulas, share_parts, share_terms};
use floyd_clight::Expr;
use floyd_ctypes::CType;
use floyd_fieldpath::sized_type;
use floyd_goal_runs::{
    Context, Entail, Goal, GoalList, intros_first, needed, one_goal, share_context, under_sides,
    with_parts,
};
use floyd_symexpr::{Evaluated, evaluate};
use floyd_symexpr_rows::{Needs, say_of_type};
use floyd_text::{RuleStop, Shared, Steps};
use floyd_tree::Term;
use std::alloc::{AllocError, Global};
use std::sync::ledger::Ledger;

/// The goal that the source with these parts gives the target.
fn entailed(
    at: Running<'_>,
    context: Context,
    parts: SepList,
    target: Assertion,
) -> Result<GoalList, AllocError>
    ensures { IfOk result (λ gs. gs ≡ g.Entail (record { context = context; source = with_parts_lem at.entry.run.now.source parts; target = target }) ∷ []) }
{
    let source = Shared::new(at.alloc, with_parts(at.alloc, at.source(), parts)?)?;
    let target = Shared::new(at.alloc, target)?;
    let goal = Goal::Entail(Entail {
        context,
        source,
        target,
    });
    one_goal(at.alloc, goal)
}

/// The local variables are given back, and what is left gives the postcondition of the value.
#[tactic(auto, using(floyd_symexpr_rows::proofs::SayingLemmas::goes_on, floyd_symexpr_rows::proofs::SayingLemmas::stops))]
fn given_back<L: Ledger>(
    at: Running<'_>,
    v: Option<&Term>,
    context: Context,
    steps: &mut Steps<L>,
) -> Result<GoalList, RuleStop>
    ensures exact { RuleGives (λ gs. gs) result (given_back_lem at.entry.run.now (option_copied v.entry) context) }
{
    let parts = share_parts(at.alloc, at.source().parts.as_slice())?;
    let left = without_blocks(at.alloc, at.blocks().as_slice(), parts, steps)?;
    let target = returned(at.alloc, v, &at.run.exits.get().ret, steps)?;
    Ok(entailed(at, context, left, target)?)
}

/// The same behind what the value needs.
fn gives_back<L: Ledger>(
    at: Running<'_>,
    v: Option<&Term>,
    needs: &Needs,
    steps: &mut Steps<L>,
) -> Result<GoalList, RuleStop>
    ensures exact { IsAnswer (GivesBack at.entry.run.now (option_copied v.entry) needs.now) result }
{
    let (side, context) = under_sides(at.alloc, &at.run.context, needs.sides.as_slice(), steps)?;
    let inner = share_context(at.alloc, &context)?;
    let goals = given_back(at, v, inner, steps)?;
    Ok(needed(
        at.alloc,
        &at.run.source,
        needs.valid.as_slice(),
        side,
        &context,
        goals,
    )?)
}

/// The term that is returned, and what it needs as a value of the type.
#[tactic(auto, using(floyd_symexpr_rows::proofs::SayingLemmas::goes_on, floyd_symexpr_rows::proofs::SayingLemmas::stops))]
fn result_needs<L: Ledger>(
    alloc: Global,
    t: &CType,
    v: &Evaluated,
    steps: &mut Steps<L>,
) -> Result<(Term, Needs), RuleStop>
    ensures exact { RuleGives (λ n. n) result (result_needs_lem t.now v.now) }
{
    let t = sized_type(alloc, t, steps)?;
    let mut sides = share_formulas(alloc, v.sides.as_slice())?;
    say_of_type(alloc, &t, &v.term, &mut sides, steps)?;
    let valid = share_terms(alloc, v.valid.as_slice())?;
    Ok((v.term.share()?, Needs { sides, valid }))
}

#[tactic(auto, using(floyd_symexpr_rows::proofs::SayingLemmas::goes_on, floyd_symexpr_rows::proofs::SayingLemmas::stops))]
fn result_of<L: Ledger>(
    at: Running<'_>,
    e: &Expr,
    steps: &mut Steps<L>,
) -> Result<(Term, Needs), RuleStop>
    ensures exact { RuleGives (λ n. n) result (result_of_lem at.entry.defs.now.structs at.entry.run.now e.now) }
{
    let v = evaluate(at.alloc, e, at.source(), at.blocks(), at.defs, steps)?;
    result_needs(at.alloc, &at.run.exits.get().ret.result, &v, steps)
}

/// A return of the value of an expression.
#[tactic(auto, using(floyd_goal_parts::proofs::RowLemmas::row_stops, floyd_goal_parts::proofs::RowLemmas::row_goes))]
fn returns_value<L: Ledger>(
    at: Running<'_>,
    e: &Expr,
    steps: &mut Steps<L>,
) -> Result<GoalList, RuleStop>
    ensures exact { IsAnswer (Returns at.entry.defs.now.structs at.entry.run.now (Some e.now)) result }
{
    let (v, needs) = result_of(at, e, steps)?;
    gives_back(at, Some(&v), &needs, steps)
}

/// A return without a value, as at the function's end, once the existentials have names.
pub(crate) fn returns_nothing<L: Ledger>(
    at: Running<'_>,
    steps: &mut Steps<L>,
) -> Result<GoalList, RuleStop>
    ensures exact { IsAnswer (Named at.entry.run.now (Returns at.entry.defs.now.structs at.entry.run.now None)) result }
{
    if at.is_pending() {
        Err(RuleStop::No(intros_first()))
    } else {
        gives_back(at, None, &Needs::new(at.alloc), steps)
    }
}

/// A return, once the existentials have names.
pub(crate) fn returns<L: Ledger>(
    at: Running<'_>,
    e: &Option<Expr>,
    steps: &mut Steps<L>,
) -> Result<GoalList, RuleStop>
    ensures exact { IsAnswer (Named at.entry.run.now (Returns at.entry.defs.now.structs at.entry.run.now e.now)) result }
{
    match e {
        None => returns_nothing(at, steps),
        Some(e) => {
            if at.is_pending() {
                Err(RuleStop::No(intros_first()))
            } else {
                returns_value(at, e, steps)
            }
        }
    }
}
