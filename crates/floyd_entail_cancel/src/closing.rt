ghost use Rattle.std.specs.Prelude.{◌≡◌, ◌++◌, IfOk, Ok};
ghost use Rattle.floyd_assert.specs.Removal.{Difference};
ghost use Rattle.floyd_entail_cancel.specs.Cancel.{Closes, IsSided, LeavesNone, OfEntail, OfTarget, Row, TakesLocals, TakesParts, closed, equations as equations_lem, exists_first as exists_first_lem, local_missing as local_missing_lem, solid as solid_lem};
ghost use Rattle.floyd_goal.specs.Answers.{IsAnswer};
ghost use Rattle.floyd_goal_parts.specs.Rows.{Sided};
ghost use Rattle.floyd_goal_parts.specs.Writing.{all_written};
ghost use Rattle.floyd_text.specs.Gives.{RuleGives};

use crate::locals::{equations, first_missing};
use crate::parts::{first_left, is_done, missing_among, solid};
use floyd_assert::{Defs, SepList, SpecTable, remove_parts, share_formulas};
use floyd_goal_parts::{
    Args, Context, Entail, Goal, GoalList, after_side, intros_first, side_in, wrong_goal,
};
use floyd_text::{Code, Name, No, RuleStop, Shown, Steps};
use floyd_tree::{Formula, FormulaList};
use std::alloc::{AllocError, Global};
use std::sync::ledger::Ledger;

/// The refusal of a target with existentials.
fn exists_first() -> No
    ensures { result ≡ exists_first_lem }
{
    No {
        code: Code::ExistsFirst,
        shown: Shown::Nothing,
    }
}

/// The refusal of a temporary of which the source says nothing.
fn local_missing(name: &Name) -> Result<No, AllocError>
    ensures { IfOk result (λ no. no ≡ local_missing_lem name.now) }
{
    Ok(No {
        code: Code::LocalMissing,
        shown: Shown::Name(name.share()?),
    })
}

/// The goal of the side formulas, if there is one.
fn closing<L: Ledger>(
    alloc: Global,
    context: &Context,
    formulas: &[Formula],
    steps: &mut Steps<L>,
) -> Result<GoalList, RuleStop>
    ensures exact { IsAnswer (Sided context.now formulas.now closed) result }
{
    let sides = side_in(alloc, context, formulas, steps)?;
    let (_, side) = sides.into_parts();
    Ok(after_side(alloc, side, GoalList::new(alloc))?)
}

/// Formulas, and behind them others.
fn in_turn(alloc: Global, front: &[Formula], back: FormulaList) -> Result<FormulaList, AllocError>
    ensures { IfOk result (λ all. all ≡ front.now ++ back) }
{
    let mut all = share_formulas(alloc, front)?;
    all.append(back)?;
    Ok(all)
}

/// The goal of PROP and of these formulas behind it, if there is one.
fn is_sided<L: Ledger>(
    alloc: Global,
    context: &Context,
    props: &[Formula],
    more: FormulaList,
    steps: &mut Steps<L>,
) -> Result<GoalList, RuleStop>
    ensures exact { IsAnswer (IsSided context.now props.now more) result }
{
    let formulas = in_turn(alloc, props, more)?;
    closing(alloc, context, formulas.as_slice(), steps)
}

/// That the target's temporaries have in the source the values that they have in the target.
fn equations_of<L: Ledger>(
    alloc: Global,
    entail: &Entail,
    steps: &mut Steps<L>,
) -> Result<FormulaList, RuleStop>
    ensures exact { RuleGives (λ fs. fs) result (all_written (equations_lem entail.now.source.locals entail.now.target.locals)) }
{
    let source = entail.source.get().locals.as_slice();
    let target = entail.target.get().locals.as_slice();
    equations(alloc, source, target, steps)
}

/// The goal of the target's PROP and of the equations, if there is one.
#[tactic(auto, using(floyd_goal_parts::proofs::RowLemmas::row_stops, floyd_goal_parts::proofs::RowLemmas::row_goes))]
fn closes<L: Ledger>(
    alloc: Global,
    entail: &Entail,
    steps: &mut Steps<L>,
) -> Result<GoalList, RuleStop>
    ensures exact { IsAnswer (Closes entail.now) result }
{
    let equations = equations_of(alloc, entail, steps)?;
    let props = entail.target.get().props.as_slice();
    is_sided(alloc, &entail.context, props, equations, steps)
}

/// The same where nothing is left, or the target has TT.
fn leaves_none<L: Ledger>(
    alloc: Global,
    entail: &Entail,
    rest: &SepList,
    steps: &mut Steps<L>,
) -> Result<GoalList, RuleStop>
    requires { Difference entail.now.source.parts 1 (solid_lem entail.now.target.parts) (Ok rest.now) }
    ensures exact { IsAnswer (LeavesNone entail.now rest.now) result }
{
    let target = &entail.target.get().parts;
    if is_done(rest, target.as_slice()) {
        return closes(alloc, entail, steps);
    }
    let source = &entail.source.get().parts;
    Err(RuleStop::No(first_left(alloc, source, target)?))
}

/// The same once these parts are taken out of the source's, which are the target's but TT.
fn takes_wanted<L: Ledger>(
    alloc: Global,
    entail: &Entail,
    wanted: &SepList,
    steps: &mut Steps<L>,
) -> Result<GoalList, RuleStop>
    requires { wanted.now ≡ solid_lem entail.now.target.parts }
    ensures exact { IsAnswer (TakesParts entail.now) result }
{
    let source = &entail.source.get().parts;
    match remove_parts(alloc, source, wanted) {
        Ok(rest) => leaves_none(alloc, entail, &rest, steps),
        Err(stop) => Err(missing_among(entail.target.get().parts.as_slice(), &stop)),
    }
}

fn takes_parts<L: Ledger>(
    alloc: Global,
    entail: &Entail,
    steps: &mut Steps<L>,
) -> Result<GoalList, RuleStop>
    ensures exact { IsAnswer (TakesParts entail.now) result }
{
    let wanted = solid(alloc, entail.target.get().parts.as_slice())?;
    takes_wanted(alloc, entail, &wanted, steps)
}

/// The same once the source says something of each of the target's temporaries.
fn takes_locals<L: Ledger>(
    alloc: Global,
    entail: &Entail,
    steps: &mut Steps<L>,
) -> Result<GoalList, RuleStop>
    ensures exact { IsAnswer (TakesLocals entail.now) result }
{
    let source = entail.source.get().locals.as_slice();
    let target = entail.target.get().locals.as_slice();
    match first_missing(source, target) {
        Some(name) => Err(RuleStop::No(local_missing(name)?)),
        None => takes_parts(alloc, entail, steps),
    }
}

/// The same once the target has no existentials.
fn of_target<L: Ledger>(
    alloc: Global,
    entail: &Entail,
    steps: &mut Steps<L>,
) -> Result<GoalList, RuleStop>
    ensures exact { IsAnswer (OfTarget entail.now) result }
{
    if entail.target.get().existentials.is_empty() {
        takes_locals(alloc, entail, steps)
    } else {
        Err(RuleStop::No(exists_first()))
    }
}

/// The same once the source has none.
fn of_entail<L: Ledger>(
    alloc: Global,
    entail: &Entail,
    steps: &mut Steps<L>,
) -> Result<GoalList, RuleStop>
    ensures exact { IsAnswer (OfEntail entail.now) result }
{
    if entail.source.get().existentials.is_empty() {
        of_target(alloc, entail, steps)
    } else {
        Err(RuleStop::No(intros_first()))
    }
}

/// Closes an Entail goal whose target's parts are those of its source, TT aside, in any order: nothing is left, or the target
/// has TT. The target's PROP, and that the temporaries of its LOCAL have its values, are side formulas. A part is taken out
/// once for each equal part of the target. Parts that are not equal are told apart by their fingerprints.
pub fn do_cancel<L: Ledger>(
    alloc: Global,
    goal: &Goal,
    _args: &Args,
    _defs: &Defs,
    _specs: &SpecTable,
    steps: &mut Steps<L>,
) -> Result<GoalList, RuleStop>
    ensures exact { IsAnswer (Row goal.now) result }
{
    match goal {
        Goal::Entail(entail) => of_entail(alloc, entail, steps),
        Goal::Run(_) => Err(RuleStop::No(wrong_goal())),
        Goal::Pure(_) => Err(RuleStop::No(wrong_goal())),
    }
}
