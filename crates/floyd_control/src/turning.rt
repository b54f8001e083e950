ghost use Rattle.std.specs.Prelude.{◌≡◌, ◌∷◌, [], IfOk, Ok, slice_get};
ghost use Rattle.floyd_control.specs.ForwardWhile.{Inside, OfLoop, OfNext, Row, Turns, TurnsBy, TurnsFrom, body_exits as body_exits_lem, inside as inside_lem, memory_of as memory_of_lem, turned as turned_lem, while_of as while_of_lem};
ghost use Rattle.floyd_control.specs.ForwardLoop.{entered as entered_lem};
ghost use Rattle.floyd_control.specs.Parts.{Named};
ghost use Rattle.floyd_goal.specs.Answers.{IsAnswer};
ghost use Rattle.floyd_goal_runs.specs.Needing.{Needing};
ghost use Rattle.floyd_goal_trees.specs.Contexts.{after_command};

use crate::exits::share_return;
use crate::looping::{entered, to};
use crate::parts::part_goal;
use crate::running::Running;
use crate::tests::while_of;
use floyd_assert::{
    Assertion, BinderList, Defs, SpecTable, share_binders, share_formulas, share_locals,
    share_parts,
};
use floyd_assert_changes::rename_apart;
use floyd_clight::{Expr, Stmt};
use floyd_conditions::{Condition, Reader, condition};
use floyd_goal_runs::{
    Args, Context, Exit, Exits, Goal, GoalList, Rest, intros_first, needed, under_sides, wrong_goal,
};
use floyd_text::{RuleStop, Shared, Steps};
use floyd_tree::FormulaList;
use std::alloc::{AllocError, Global};
use std::sync::ledger::Ledger;

/// LOCAL and SEP alone.
fn memory_of(alloc: Global, a: &Assertion) -> Result<Assertion, AllocError>
    ensures { IfOk result (λ b. b ≡ memory_of_lem a.now) }
{
    let existentials = BinderList::new(alloc);
    let props = FormulaList::new(alloc);
    let locals = share_locals(alloc, a.locals.as_slice())?;
    let parts = share_parts(alloc, a.parts.as_slice())?;
    Ok(Assertion {
        existentials,
        props,
        locals,
        parts,
    })
}

/// The context with the existentials and the PROP of an assertion.
fn inside(alloc: Global, context: &Context, a: &Assertion) -> Result<Context, AllocError>
    ensures { IfOk result (λ c. c ≡ inside_lem context.now a.now) }
{
    let mut variables = share_binders(alloc, context.variables.get().as_slice())?;
    variables.append(share_binders(alloc, a.existentials.as_slice())?)?;
    let mut hypotheses = share_formulas(alloc, context.hypotheses.get().as_slice())?;
    hypotheses.append(share_formulas(alloc, a.props.as_slice())?)?;
    let mark = context.mark.after_command(alloc)?;
    Ok(Context {
        variables: Shared::new(alloc, variables)?,
        hypotheses: Shared::new(alloc, hypotheses)?,
        mark,
    })
}

/// The exits of the body.
fn body_exits(at: Running<'_>, invariant: &Assertion) -> Result<Exits, AllocError>
    ensures { IfOk result (λ e. e ≡ body_exits_lem at.entry.run.now.exits invariant.now) }
{
    let normal = to(at.alloc, invariant)?;
    let brk = Exit::None;
    let cont = to(at.alloc, invariant)?;
    let ret = share_return(at.alloc, &at.run.exits.get().ret)?;
    Ok(Exits {
        normal,
        brk,
        cont,
        ret,
    })
}

/// What holds before each test of a loop, and what its test says.
#[derive(Clone, Copy)]
struct Turning<'a> {
    invariant: &'a Assertion,
    condition: &'a Condition,
}

/// The body where the test is met, and what follows where it is not.
fn turned(
    at: Running<'_>,
    turning: Turning<'_>,
    source: &Shared<Assertion>,
    body: Rest,
    context: &Context,
) -> Result<GoalList, AllocError>
    ensures { IfOk result (λ gs. turned_lem at.entry.run.now turning.entry.invariant.now source.now turning.entry.condition.now body context.now ≡ Ok gs) }
{
    let exits = Shared::new(at.alloc, body_exits(at, turning.invariant)?)?;
    let branches = &turning.condition.branches;
    let mut goals = GoalList::new(at.alloc);
    goals.push(part_goal(at.alloc, context, source, &exits, &branches.met, body)?)?;
    let outer = at.run.exits.share()?;
    let rest = at.behind()?;
    goals.push(part_goal(at.alloc, context, source, &outer, &branches.unmet, rest)?)?;
    Ok(goals)
}

/// What the test needs from that memory, and then these goals.
fn turned_under<L: Ledger>(
    at: Running<'_>,
    turning: Turning<'_>,
    source: &Shared<Assertion>,
    body: Rest,
    context: &Context,
    steps: &mut Steps<L>,
) -> Result<GoalList, RuleStop>
    ensures exact { IsAnswer (Needing context.now source.now turning.entry.condition.now.needs (turned_lem at.entry.run.now turning.entry.invariant.now source.now turning.entry.condition.now body)) result }
{
    let needs = &turning.condition.needs;
    let (side, under) = under_sides(at.alloc, context, needs.sides.as_slice(), steps)?;
    let goals = turned(at, turning, source, body, &under)?;
    let valid = needs.valid.as_slice();
    Ok(needed(at.alloc, source, valid, side, &under, goals)?)
}

fn turns_inside<L: Ledger>(
    at: Running<'_>,
    invariant: &Assertion,
    a: &Assertion,
    body: Rest,
    c: &Condition,
    steps: &mut Steps<L>,
) -> Result<GoalList, RuleStop>
    ensures exact { IsAnswer (Inside at.entry.run.now invariant.now a.now body c.now) result }
{
    let source = Shared::new(at.alloc, memory_of(at.alloc, a)?)?;
    let context = inside(at.alloc, &at.run.context, a)?;
    let turning = Turning {
        invariant,
        condition: c,
    };
    turned_under(at, turning, &source, body, &context, steps)
}

/// The goal that the source gives the assertion, before others.
fn entering(at: Running<'_>, invariant: &Assertion, goals: GoalList) -> Result<GoalList, AllocError>
    ensures { IfOk result (λ gs. gs ≡ entered_lem at.entry.run.now (after_command at.entry.run.now.context) invariant.now ∷ goals) }
{
    let context = at.run.context.after_command(at.alloc)?;
    let mut all = GoalList::new(at.alloc);
    all.push(entered(at, &context, invariant)?)?;
    all.append(goals)?;
    Ok(all)
}

#[tactic(auto, using(crate::proofs::WhileLemmas::inside_stops, crate::proofs::WhileLemmas::inside_gives))]
fn turns_by<L: Ledger>(
    at: Running<'_>,
    invariant: &Assertion,
    a: &Assertion,
    body: Rest,
    c: &Condition,
    steps: &mut Steps<L>,
) -> Result<GoalList, RuleStop>
    ensures exact { IsAnswer (TurnsBy at.entry.run.now invariant.now a.now body c.now) result }
{
    match turns_inside(at, invariant, a, body, c, steps) {
        Ok(goals) => Ok(entering(at, invariant, goals)?),
        Err(stop) => Err(stop),
    }
}

fn turns_from<L: Ledger>(
    at: Running<'_>,
    invariant: &Assertion,
    test: &Expr,
    body: Rest,
    a: &Assertion,
    steps: &mut Steps<L>,
) -> Result<GoalList, RuleStop>
    ensures exact { IsAnswer (TurnsFrom at.entry.defs.now.structs at.entry.run.now invariant.now test.now body a.now) result }
{
    let memory = memory_of(at.alloc, a)?;
    let reader = Reader {
        alloc: at.alloc,
        source: &memory,
        blocks: at.run.exits.get().ret.blocks.get(),
        defs: at.defs,
    };
    match condition(reader, test, steps) {
        Ok(c) => turns_by(at, invariant, a, body, &c, steps),
        Err(stop) => Err(stop),
    }
}

fn turns_value<L: Ledger>(
    at: Running<'_>,
    invariant: &Assertion,
    test: &Expr,
    body: Rest,
    steps: &mut Steps<L>,
) -> Result<GoalList, RuleStop>
    ensures exact { IsAnswer (Turns at.entry.defs.now.structs at.entry.run.now invariant.now (test.now, body)) result }
{
    let variables = at.run.context.variables.get().as_slice();
    match rename_apart(at.alloc, invariant, variables, steps) {
        Ok(a) => turns_from(at, invariant, test, body, &a, steps),
        Err(stop) => Err(stop),
    }
}

/// A loop with a test, once the existentials have names.
fn turns<L: Ledger>(
    at: Running<'_>,
    invariant: &Assertion,
    test: &Expr,
    body: Rest,
    steps: &mut Steps<L>,
) -> Result<GoalList, RuleStop>
    ensures exact { IsAnswer (Named at.entry.run.now (Turns at.entry.defs.now.structs at.entry.run.now invariant.now (test.now, body))) result }
{
    if at.is_pending() {
        Err(RuleStop::No(intros_first()))
    } else {
        turns_value(at, invariant, test, body, steps)
    }
}

fn of_loop<L: Ledger>(
    at: Running<'_>,
    given: &[Assertion],
    found: Option<(Expr, Rest)>,
    steps: &mut Steps<L>,
) -> Result<GoalList, RuleStop>
    ensures exact { IsAnswer (OfLoop at.entry.defs.now.structs at.entry.run.now given.now found) result }
{
    let Some((test, body)) = found else {
        return Err(RuleStop::No(wrong_goal()));
    };
    match given {
        [a] => turns(at, a, &test, body, steps),
        _ => Err(RuleStop::No(wrong_goal())),
    }
}

fn of_statement<L: Ledger>(
    at: Running<'_>,
    given: &[Assertion],
    s: &Stmt,
    steps: &mut Steps<L>,
) -> Result<GoalList, RuleStop>
    ensures exact { IsAnswer (OfLoop at.entry.defs.now.structs at.entry.run.now given.now (while_of_lem s.now)) result }
{
    let found = while_of(at.alloc, s)?;
    of_loop(at, given, found, steps)
}

fn of_next<L: Ledger>(
    at: Running<'_>,
    given: &[Assertion],
    steps: &mut Steps<L>,
) -> Result<GoalList, RuleStop>
    ensures exact { IsAnswer (OfNext at.entry.defs.now.structs at.entry.run.now given.now (slice_get at.entry.run.now.rest 0)) result }
{
    match at.run.rest.first() {
        Some(s) => of_statement(at, given, s, steps),
        None => Err(RuleStop::No(wrong_goal())),
    }
}

/// Takes a loop apart whose first part begins with a test that breaks, and whose second part has no statements. The command is
/// given what holds before each test. Its existentials are variables of the goals of the body and of what follows, with new
/// names where a variable of the goal has theirs.
pub fn do_forward_while<L: Ledger>(
    alloc: Global,
    goal: &Goal,
    args: &Args,
    defs: &Defs,
    _specs: &SpecTable,
    steps: &mut Steps<L>,
) -> Result<GoalList, RuleStop>
    ensures exact { IsAnswer (Row defs.now.structs goal.now args.now) result }
{
    match goal {
        Goal::Run(run) => of_next(
            Running { alloc, run, defs },
            args.assertions.as_slice(),
            steps,
        ),
        Goal::Entail(_) => Err(RuleStop::No(wrong_goal())),
        Goal::Pure(_) => Err(RuleStop::No(wrong_goal())),
    }
}
