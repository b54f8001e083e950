ghost use Rattle.std.specs.Prelude.{◌≡◌, ◌∷◌, ◌++◌, [], IfOk, Ok, OnOk, drop, length, slice_get};
ghost use Rattle.floyd_clight.specs.Flat.{flat as flat_lem};
ghost use Rattle.floyd_control.specs.ForwardLoop.{entered as entered_lem};
ghost use Rattle.floyd_control.specs.ForwardSwitch.{OfNext, OfStatement, Row, Switches, SwitchesBy, SwitchesWith, bodies_of, case_exits as case_exits_lem, case_formulas as case_formulas_lem, case_goal as case_goal_lem, case_goals as case_goals_lem, has_default as has_default_lem, labels_of, no_labels as no_labels_lem, otherwise as otherwise_lem, switched as switched_lem, under_more};
ghost use Rattle.floyd_control.specs.Parts.{Named};
ghost use Rattle.floyd_control.specs.SwitchClauses.{switched_by as switched_by_lem};
ghost use Rattle.floyd_goal.specs.Answers.{IsAnswer};
ghost use Rattle.floyd_text.specs.Gives.{RuleGives};

use crate::choosing::{case_formulas, choice, has_default, no_labels};
use crate::exits::{share_exit, share_return};
use crate::looping::{entered, to};
use crate::parts::runs_from;
use crate::running::Running;
use floyd_assert::{Assertion, Defs, SpecTable};
use floyd_clight::{Case, Expr, Stmt, StmtList, flat};
use floyd_goal_runs::{
    Args, Context, Exits, Goal, GoalList, Rest, intros_first, needed, run_goal, under_sides,
    with_hypotheses, wrong_goal,
};
use floyd_symexpr_rows::{Needs, Number};
use floyd_text::{RuleStop, Shared, Steps};
use std::alloc::{AllocError, Global};
use std::sync::ledger::Ledger;

/// The number that chooses a case, the cases, what holds behind the switch, and the exits of its bodies.
#[derive(Clone, Copy)]
struct Switching<'a> {
    number: &'a Number,
    cases: &'a [Case],
    to: &'a Assertion,
    exits: &'a Shared<Exits>,
}

/// The exits of a case.
fn case_exits(at: Running<'_>, a: &Assertion) -> Result<Exits, AllocError>
    ensures { IfOk result (λ e. e ≡ case_exits_lem at.entry.run.now.exits a.now) }
{
    let exits = at.run.exits.get();
    let normal = to(at.alloc, a)?;
    let brk = to(at.alloc, a)?;
    let cont = share_exit(&exits.cont)?;
    let ret = share_return(at.alloc, &exits.ret)?;
    Ok(Exits {
        normal,
        brk,
        cont,
        ret,
    })
}

/// The statements of all the cases.
fn bodies(alloc: Global, cases: &[Case]) -> Result<Rest, AllocError>
    ensures { IfOk result (λ r. r ≡ bodies_of cases.now) }
{
    let mut all = StmtList::new(alloc);
    'cases: for case in cases {
        all.append(flat(alloc, case.body.get())?)?;
    }
    Ok(Rest::new(Shared::new(alloc, all)?))
}

/// Goes on behind as many statements as there are here.
fn skip(rest: &mut Rest, past: &[Stmt])
    ensures { rest.new ≡ drop (length past.now) rest.old }
{
    'statements: for _statement in past {
        rest.advance();
    }
}

/// What a case runs, under what holds there.
#[tactic(auto, using(floyd_symexpr_rows::proofs::SayingLemmas::goes_on, floyd_symexpr_rows::proofs::SayingLemmas::stops))]
fn case_goal<L: Ledger>(
    at: Running<'_>,
    switching: Switching<'_>,
    label: Option<u64>,
    rest: Rest,
    context: &Context,
    steps: &mut Steps<L>,
) -> Result<Goal, RuleStop>
    ensures exact { RuleGives (λ g. g) result (under_more context.now (case_formulas_lem switching.entry.number.now (labels_of switching.entry.cases.now) label) (case_goal_lem at.entry.run.now switching.entry.exits.now rest)) }
{
    let more = case_formulas(at.alloc, switching.number, switching.cases, label, steps)?;
    let inner = with_hypotheses(at.alloc, context, more)?;
    let source = at.run.source.share()?;
    Ok(run_goal(inner, source, rest, switching.exits.share()?)?)
}

/// Puts the goal of a case behind others, and goes on behind its body.
#[tactic(auto, using(floyd_symexpr_rows::proofs::SayingLemmas::goes_on, floyd_symexpr_rows::proofs::SayingLemmas::stops))]
fn put_case<L: Ledger>(
    at: Running<'_>,
    switching: Switching<'_>,
    case: &Case,
    rest: &mut Rest,
    context: &Context,
    steps: &mut Steps<L>,
) -> Result<Goal, RuleStop>
    ensures exact { RuleGives (λ g. g) result (under_more context.now (case_formulas_lem switching.entry.number.now (labels_of switching.entry.cases.now) case.now.label) (case_goal_lem at.entry.run.now switching.entry.exits.now rest.old)) }
    ensures rest { OnOk result (rest.new ≡ drop (length (flat_lem case.now.body)) rest.old) }
{
    let here = rest.share()?;
    let goal = case_goal(at, switching, case.label, here, context, steps)?;
    let body = flat(at.alloc, case.body.get())?;
    skip(rest, body.as_slice());
    Ok(goal)
}

/// For each case what it runs.
fn case_goals<L: Ledger>(
    at: Running<'_>,
    switching: Switching<'_>,
    context: &Context,
    steps: &mut Steps<L>,
) -> Result<GoalList, RuleStop>
    ensures exact { RuleGives (λ gs. gs) result (case_goals_lem at.entry.run.now switching.entry.number.now (labels_of switching.entry.cases.now) context.now switching.entry.exits.now switching.entry.cases.now) }
{
    let mut rest = bodies(at.alloc, switching.cases)?;
    let mut goals = GoalList::new(at.alloc);
    let mut left = switching.cases;
    'cases: while let Some((case, more)) = left.split_first() {
        goals.push(put_case(at, switching, case, &mut rest, context, steps)?)?;
        left = more;
    }
    Ok(goals)
}

/// The goal that the source gives what holds behind the switch, where the number is no label.
#[tactic(auto, using(floyd_symexpr_rows::proofs::SayingLemmas::goes_on, floyd_symexpr_rows::proofs::SayingLemmas::stops))]
fn passed<L: Ledger>(
    at: Running<'_>,
    switching: Switching<'_>,
    context: &Context,
    steps: &mut Steps<L>,
) -> Result<Goal, RuleStop>
    ensures exact { RuleGives (λ g. g) result (under_more context.now (no_labels_lem switching.entry.number.now (labels_of switching.entry.cases.now)) (λ inner. entered_lem at.entry.run.now inner switching.entry.to.now)) }
{
    let more = no_labels(at.alloc, switching.number, switching.cases, steps)?;
    let inner = with_hypotheses(at.alloc, context, more)?;
    Ok(entered(at, &inner, switching.to)?)
}

/// What is asked for where there is no default.
#[tactic(auto, using(floyd_symexpr_rows::proofs::SayingLemmas::goes_on, floyd_symexpr_rows::proofs::SayingLemmas::stops))]
fn otherwise<L: Ledger>(
    at: Running<'_>,
    switching: Switching<'_>,
    default: bool,
    context: &Context,
    steps: &mut Steps<L>,
) -> Result<GoalList, RuleStop>
    ensures exact { RuleGives (λ gs. gs) result (otherwise_lem at.entry.run.now switching.entry.number.now (labels_of switching.entry.cases.now) context.now switching.entry.to.now default) }
{
    let mut goals = GoalList::new(at.alloc);
    if default {
        return Ok(goals);
    }
    let goal = passed(at, switching, context, steps)?;
    goals.push(goal)?;
    Ok(goals)
}

/// The goals of the cases, and that without a default.
#[tactic(auto, using(floyd_symexpr_rows::proofs::SayingLemmas::goes_on, floyd_symexpr_rows::proofs::SayingLemmas::stops))]
fn switched_by<L: Ledger>(
    at: Running<'_>,
    switching: Switching<'_>,
    context: &Context,
    steps: &mut Steps<L>,
) -> Result<GoalList, RuleStop>
    ensures exact { RuleGives (λ gs. gs) result (switched_by_lem at.entry.run.now switching.entry.to.now switching.entry.cases.now switching.entry.number.now context.now switching.entry.exits.now) }
{
    let mut goals = case_goals(at, switching, context, steps)?;
    let default = has_default(switching.cases);
    let more = otherwise(at, switching, default, context, steps)?;
    goals.append(more)?;
    let exits = at.run.exits.share()?;
    goals.push(runs_from(at.alloc, context, switching.to, at.behind()?, exits)?)?;
    Ok(goals)
}

/// The goals behind the side formulas.
fn switched<L: Ledger>(
    at: Running<'_>,
    a: &Assertion,
    cases: &[Case],
    number: &Number,
    context: &Context,
    steps: &mut Steps<L>,
) -> Result<GoalList, RuleStop>
    ensures exact { RuleGives (λ gs. gs) result (switched_lem at.entry.run.now a.now cases.now number.now context.now) }
{
    let exits = Shared::new(at.alloc, case_exits(at, a)?)?;
    let switching = Switching {
        number,
        cases,
        to: a,
        exits: &exits,
    };
    switched_by(at, switching, context, steps)
}

fn switches_by<L: Ledger>(
    at: Running<'_>,
    a: &Assertion,
    cases: &[Case],
    number: &Number,
    needs: &Needs,
    steps: &mut Steps<L>,
) -> Result<GoalList, RuleStop>
    ensures exact { IsAnswer (SwitchesBy at.entry.run.now a.now cases.now (number.now, needs.now)) result }
{
    let formulas = needs.sides.as_slice();
    let (side, context) = under_sides(at.alloc, &at.run.context, formulas, steps)?;
    let goals = switched(at, a, cases, number, &context, steps)?;
    let valid = needs.valid.as_slice();
    Ok(needed(at.alloc, &at.run.source, valid, side, &context, goals)?)
}

fn switches_value<L: Ledger>(
    at: Running<'_>,
    a: &Assertion,
    e: &Expr,
    cases: &[Case],
    steps: &mut Steps<L>,
) -> Result<GoalList, RuleStop>
    ensures exact { IsAnswer (Switches at.entry.defs.now.structs at.entry.run.now a.now e.now cases.now) result }
{
    let (number, needs) = choice(at.reader(), e, steps)?;
    switches_by(at, a, cases, &number, &needs, steps)
}

/// A switch, once the existentials have names.
fn switches<L: Ledger>(
    at: Running<'_>,
    a: &Assertion,
    e: &Expr,
    cases: &[Case],
    steps: &mut Steps<L>,
) -> Result<GoalList, RuleStop>
    ensures exact { IsAnswer (Named at.entry.run.now (Switches at.entry.defs.now.structs at.entry.run.now a.now e.now cases.now)) result }
{
    if at.is_pending() {
        Err(RuleStop::No(intros_first()))
    } else {
        switches_value(at, a, e, cases, steps)
    }
}

fn switches_with<L: Ledger>(
    at: Running<'_>,
    given: &[Assertion],
    e: &Expr,
    cases: &[Case],
    steps: &mut Steps<L>,
) -> Result<GoalList, RuleStop>
    ensures exact { IsAnswer (SwitchesWith at.entry.defs.now.structs at.entry.run.now given.now e.now cases.now) result }
{
    match given {
        [a] => switches(at, a, e, cases, steps),
        _ => Err(RuleStop::No(wrong_goal())),
    }
}

fn of_statement<L: Ledger>(
    at: Running<'_>,
    given: &[Assertion],
    s: &Stmt,
    steps: &mut Steps<L>,
) -> Result<GoalList, RuleStop>
    ensures exact { IsAnswer (OfStatement at.entry.defs.now.structs at.entry.run.now given.now s.now) result }
{
    match s {
        Stmt::Switch(e, cases) => switches_with(at, given, e, cases.as_slice(), steps),
        _ => Err(RuleStop::No(wrong_goal())),
    }
}

fn of_next<L: Ledger>(
    at: Running<'_>,
    given: &[Assertion],
    steps: &mut Steps<L>,
) -> Result<GoalList, RuleStop>
    ensures exact { IsAnswer (OfNext at.entry.defs.now.structs at.entry.run.now given.now (slice_get at.entry.run.now.rest 0)) result }
{
    match at.run.rest.first() {
        Some(s) => of_statement(at, given, s, steps),
        None => Err(RuleStop::No(wrong_goal())),
    }
}

/// Takes a switch apart: from each of its cases on the bodies run to the assertion that the command is given, also by break,
/// under what its label says. Without a default the assertion follows where the value is no label. What is behind the switch
/// runs from the assertion.
pub fn do_forward_switch<L: Ledger>(
    alloc: Global,
    goal: &Goal,
    args: &Args,
    defs: &Defs,
    _specs: &SpecTable,
    steps: &mut Steps<L>,
) -> Result<GoalList, RuleStop>
    ensures exact { IsAnswer (Row defs.now.structs goal.now args.now) result }
{
    match goal {
        Goal::Run(run) => of_next(
            Running { alloc, run, defs },
            args.assertions.as_slice(),
            steps,
        ),
        Goal::Entail(_) => Err(RuleStop::No(wrong_goal())),
        Goal::Pure(_) => Err(RuleStop::No(wrong_goal())),
    }
}
