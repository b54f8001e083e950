ghost use Rattle.std.specs.Prelude.{◌≡◌, ◌∷◌, [], IfOk, Ok, false, true};
ghost use Rattle.floyd_forward.specs.Forward.{Named};
ghost use Rattle.floyd_forward.specs.Set.{Sets, SetsBy, SetsRead, SetsTerm, SetsTyped, SetsWith, set_to as set_to_lem};
ghost use Rattle.floyd_goal.specs.Answers.{IsAnswer};

use crate::locals::with_temp;
use crate::reading::read_from;
use crate::running::Running;
use crate::types::is_read;
use floyd_clight::Expr;
use floyd_ctypes::CType;
use floyd_fieldpath::sized_type;
use floyd_goal_formulas::kept;
use floyd_goal_runs::{
    Context, GoalList, intros_first, needed, one_goal, share_context, under_sides, with_hypotheses,
};
use floyd_symexpr::{Evaluated, evaluate};
use floyd_symexpr_rows::{Needs, say_of_type};
use floyd_text::{Name, RuleStop, Steps};
use floyd_tree::{FormulaList, Term};
use std::alloc::AllocError;
use std::sync::ledger::Ledger;

/// What is left runs in that context with the temporary set to the term.
fn set_to(
    at: Running<'_>,
    name: &Name,
    term: &Term,
    context: Context,
) -> Result<GoalList, AllocError>
    ensures { IfOk result (λ gs. set_to_lem at.entry.run.now name.now term.now context ≡ Ok gs) }
{
    let source = with_temp(at.alloc, name, term, at.source())?;
    one_goal(at.alloc, at.runs_on(context, source)?)
}

/// The temporary is set to the term of an expression.
fn sets_term<L: Ledger>(
    at: Running<'_>,
    name: &Name,
    v: &Evaluated,
    steps: &mut Steps<L>,
) -> Result<GoalList, RuleStop>
    ensures exact { IsAnswer (SetsTerm at.entry.run.now name.now v.now) result }
{
    let (side, context) = under_sides(at.alloc, &at.run.context, v.sides.as_slice(), steps)?;
    let inner = share_context(at.alloc, &context)?;
    let goals = set_to(at, name, &v.term, inner)?;
    Ok(needed(
        at.alloc,
        &at.run.source,
        v.valid.as_slice(),
        side,
        &context,
        goals,
    )?)
}

/// The temporary is set to a value that was read, and these are hypotheses besides.
fn sets_with<L: Ledger>(
    at: Running<'_>,
    name: &Name,
    v: &Term,
    needs: &Needs,
    more: FormulaList,
    steps: &mut Steps<L>,
) -> Result<GoalList, RuleStop>
    ensures exact { IsAnswer (SetsWith at.entry.run.now name.now (v.now, needs.now) more) result }
{
    let (side, context) = under_sides(at.alloc, &at.run.context, needs.sides.as_slice(), steps)?;
    let inner = with_hypotheses(at.alloc, &context, more)?;
    let goals = set_to(at, name, v, inner)?;
    Ok(needed(
        at.alloc,
        &at.run.source,
        needs.valid.as_slice(),
        side,
        &context,
        goals,
    )?)
}

/// The same where those of these formulas that need a proof are hypotheses besides.
fn sets_typed<L: Ledger>(
    at: Running<'_>,
    name: &Name,
    v: &Term,
    needs: &Needs,
    typed: &FormulaList,
    steps: &mut Steps<L>,
) -> Result<GoalList, RuleStop>
    ensures exact { IsAnswer (SetsTyped at.entry.run.now name.now (v.now, needs.now) typed.now) result }
{
    let hypotheses = at.run.context.hypotheses.get().as_slice();
    let more = kept(at.alloc, hypotheses, typed.as_slice())?;
    sets_with(at, name, v, needs, more, steps)
}

/// The temporary is set to a value of the type that was read.
fn sets_value<L: Ledger>(
    at: Running<'_>,
    name: &Name,
    t: &CType,
    v: &Term,
    needs: &Needs,
    steps: &mut Steps<L>,
) -> Result<GoalList, RuleStop>
    ensures exact { IsAnswer (SetsRead at.entry.run.now name.now t.now (v.now, needs.now)) result }
{
    let t = sized_type(at.alloc, t, steps)?;
    let mut typed = FormulaList::new(at.alloc);
    say_of_type(at.alloc, &t, v, &mut typed, steps)?;
    sets_typed(at, name, v, needs, &typed, steps)
}

/// The temporary is set to what is read from memory.
#[tactic(auto, using(floyd_goal_parts::proofs::RowLemmas::row_stops, floyd_goal_parts::proofs::RowLemmas::row_goes))]
fn sets_read<L: Ledger>(
    at: Running<'_>,
    name: &Name,
    e: &Expr,
    steps: &mut Steps<L>,
) -> Result<GoalList, RuleStop>
    ensures exact { IsAnswer (SetsBy true at.entry.defs.now.structs at.entry.run.now name.now e.now) result }
{
    let (v, needs) = read_from(at, e, steps)?;
    sets_value(at, name, e.ctype(), &v, &needs, steps)
}

/// The temporary is set to the value of an expression.
#[tactic(auto, using(floyd_goal_parts::proofs::RowLemmas::row_stops, floyd_goal_parts::proofs::RowLemmas::row_goes))]
fn sets_evaluated<L: Ledger>(
    at: Running<'_>,
    name: &Name,
    e: &Expr,
    steps: &mut Steps<L>,
) -> Result<GoalList, RuleStop>
    ensures exact { IsAnswer (SetsBy false at.entry.defs.now.structs at.entry.run.now name.now e.now) result }
{
    let v = evaluate(at.alloc, e, at.source(), at.blocks(), at.defs, steps)?;
    sets_term(at, name, &v, steps)
}

/// A set of a temporary, once the existentials have names.
pub(crate) fn sets<L: Ledger>(
    at: Running<'_>,
    name: &Name,
    e: &Expr,
    steps: &mut Steps<L>,
) -> Result<GoalList, RuleStop>
    ensures exact { IsAnswer (Named at.entry.run.now (Sets at.entry.defs.now.structs at.entry.run.now name.now e.now)) result }
{
    if at.is_pending() {
        return Err(RuleStop::No(intros_first()));
    }
    if is_read(e) {
        sets_read(at, name, e, steps)
    } else {
        sets_evaluated(at, name, e, steps)
    }
}
