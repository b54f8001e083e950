ghost use Rattle.std.specs.Prelude.{◌≡◌, ◌∷◌, [], IfOk, Some};
ghost use Rattle.floyd_assert_changes.specs.Substituted.{formula_with};
ghost use Rattle.floyd_goal.specs.Answers.{IsAnswer};
ghost use Rattle.floyd_goal_formulas.specs.Said.{said as said_lem};
ghost use Rattle.floyd_goal_trees.specs.Contexts.{with_hypotheses};
ghost use Rattle.floyd_pure_formulas.specs.HypothesisCases.{HypothesisCases, OfCases, OfExists, cases_of, in_cases, opened as opened_lem, wrong_names as wrong_names_lem};
ghost use Rattle.floyd_pure_formulas.specs.Naming.{variable as variable_lem};
ghost use Rattle.floyd_pure_formulas.specs.OpeningClauses.{CanOpen};
ghost use Rattle.floyd_pure_formulas.specs.Rows.{extended as extended_lem, named_by as named_by_lem, no_such as no_such_lem, with_more as with_more_lem};
ghost use Rattle.floyd_text.specs.Gives.{RuleGives};
ghost use Rattle.floyd_tree.specs.Formulas.{PlainFormula};
ghost use Rattle.floyd_truth.specs.Replace.{FormulaSortsAgree, puts};

use crate::naming::{has_name, taken, variable};
use crate::rows::{extended, named_by, no_such, with_more};
use floyd_assert_changes::subst_formula;
use floyd_assert_trees::{Binder, BinderList, share_formulas};
use floyd_goal::{Args, Context, Goal, GoalList, Said, context_of, in_context, says};
use floyd_text::{Code, Name, No, RuleStop, Shared, Shown, Steps};
use floyd_tree::{Formula, FormulaList};
use std::alloc::{AllocError, Global};
use std::sync::ledger::Ledger;

/// The refusal of another number of names than there are new variables.
pub fn wrong_names() -> No
    ensures { result ≡ wrong_names_lem }
{
    No {
        code: Code::WrongNames,
        shown: Shown::Nothing,
    }
}

/// The goal with one formula more.
fn with_one(alloc: Global, goal: &Goal, formula: &Formula) -> Result<Goal, AllocError>
    ensures { IfOk result (λ g. g ≡ with_more_lem goal.now (formula.now ∷ [])) }
{
    let mut more = FormulaList::new(alloc);
    more.push(formula.share()?)?;
    with_more(alloc, goal, more)
}

/// The goal with both formulas more.
fn with_both(
    alloc: Global,
    goal: &Goal,
    left: &Formula,
    right: &Formula,
) -> Result<GoalList, AllocError>
    ensures { IfOk result (λ gs. gs ≡ with_more_lem goal.now (left.now ∷ right.now ∷ []) ∷ []) }
{
    let mut more = FormulaList::new(alloc);
    more.push(left.share()?)?;
    more.push(right.share()?)?;
    let mut goals = GoalList::new(alloc);
    goals.push(with_more(alloc, goal, more)?)?;
    Ok(goals)
}

/// The goal with each of the formulas more.
fn with_each(
    alloc: Global,
    goal: &Goal,
    left: &Formula,
    right: &Formula,
) -> Result<GoalList, AllocError>
    ensures { IfOk result (λ gs. gs ≡ with_more_lem goal.now (left.now ∷ []) ∷ with_more_lem goal.now (right.now ∷ []) ∷ []) }
{
    let mut goals = GoalList::new(alloc);
    goals.push(with_one(alloc, goal, left)?)?;
    goals.push(with_one(alloc, goal, right)?)?;
    Ok(goals)
}

/// The goals of a hypothesis that is an `and`, an `or` or False.
fn in_cases(
    alloc: Global,
    goal: &Goal,
    refusal: No,
    hypothesis: &Formula,
) -> Result<GoalList, RuleStop>
    ensures { RuleGives (λ gs. gs) result (in_cases goal.now refusal (cases_of (said_lem hypothesis.now))) }
{
    match says(hypothesis) {
        Said::Both(left, right) => Ok(with_both(alloc, goal, left, right)?),
        Said::Either(left, right) => Ok(with_each(alloc, goal, left, right)?),
        Said::Absurd => Ok(GoalList::new(alloc)),
        _ => Err(RuleStop::No(refusal)),
    }
}

/// The context behind a command with a variable and a formula more.
fn opened_context(
    alloc: Global,
    context: &Context,
    binder: Binder,
    body: Formula,
) -> Result<Context, AllocError>
    ensures { IfOk result (λ c. c ≡ with_hypotheses (extended_lem context.now (binder ∷ [])) (body ∷ [])) }
{
    let mut more = BinderList::new(alloc);
    more.push(binder)?;
    let longer = extended(alloc, context, more)?;
    let mut all = share_formulas(alloc, context.hypotheses.get().as_slice())?;
    all.push(body)?;
    let variables = longer.variables.share()?;
    let hypotheses = Shared::new(alloc, all)?;
    let mark = context.mark.after_command(alloc)?;
    Ok(Context {
        variables,
        hypotheses,
        mark,
    })
}

/// The goal of an `exists` of y over the body, with this variable for y.
fn opened<L: Ledger>(
    alloc: Global,
    goal: &Goal,
    y: &Name,
    body: &Formula,
    binder: Binder,
    steps: &mut Steps<L>,
) -> Result<GoalList, RuleStop>
    requires { FormulaSortsAgree (puts ((y.now, variable_lem binder.name binder.sort) ∷ [])) body.now }
    ensures { RuleGives (λ gs. gs) result (opened_lem goal.now binder (formula_with ((y.now, variable_lem binder.name binder.sort) ∷ []) body.now)) }
{
    let by = [(
        y.share()?,
        variable(alloc, &binder.name, &binder.sort, steps)?,
    )];
    match subst_formula(alloc, body, &by, steps) {
        Ok(body) => {
            let context = opened_context(alloc, context_of(goal), binder, body)?;
            let mut goals = GoalList::new(alloc);
            goals.push(in_context(goal, context)?)?;
            Ok(goals)
        }
        Err(stop) => Err(stop),
    }
}

/// The goal of a hypothesis that is an `exists`, for which there is one name, which is new.
#[tactic(auto, using(crate::proofs::RowAnswers::exists_other, crate::proofs::RowAnswers::exists_wrong, crate::proofs::RowAnswers::exists_taken, crate::proofs::RowAnswers::exists_opened))]
fn of_exists<L: Ledger>(
    alloc: Global,
    goal: &Goal,
    args: &Args,
    hypothesis: &Formula,
    steps: &mut Steps<L>,
) -> Result<GoalList, RuleStop>
    requires { CanOpen (said_lem hypothesis.now) }
    ensures { IsAnswer (OfExists goal.now (no_such_lem args.now) args.now.names (said_lem hypothesis.now)) result }
{
    let Said::ThereIs(y, sort, body) = says(hypothesis) else {
        return Err(RuleStop::No(no_such(args)));
    };
    let [x] = args.names.as_slice() else {
        return Err(RuleStop::No(wrong_names()));
    };
    if has_name(x, context_of(goal).variables.get().as_slice()) {
        return Err(RuleStop::No(taken(x)?));
    }
    let name = x.share()?;
    let sort = sort.share()?;
    opened(alloc, goal, y, body, Binder { name, sort }, steps)
}

/// The goals of this hypothesis.
#[tactic(auto, using(crate::proofs::RowAnswers::cases_unnamed, crate::proofs::RowAnswers::cases_named))]
fn of_cases<L: Ledger>(
    alloc: Global,
    goal: &Goal,
    args: &Args,
    hypothesis: &Formula,
    steps: &mut Steps<L>,
) -> Result<GoalList, RuleStop>
    requires { CanOpen (said_lem hypothesis.now) }
    ensures { IsAnswer (OfCases goal.now (no_such_lem args.now) (said_lem hypothesis.now) args.now.names) result }
{
    if args.names.is_empty() {
        in_cases(alloc, goal, no_such(args), hypothesis)
    } else {
        of_exists(alloc, goal, args, hypothesis, steps)
    }
}

/// The goals of the cases of a hypothesis.
#[tactic(auto, using(crate::proofs::RowAnswers::none_named, crate::proofs::RowAnswers::one_named))]
pub fn hypothesis_cases<L: Ledger>(
    alloc: Global,
    goal: &Goal,
    args: &Args,
    steps: &mut Steps<L>,
) -> Result<GoalList, RuleStop>
    requires { (h : PlainFormula) → named_by_lem goal.now args.now ≡ Some h → CanOpen (said_lem h) }
    ensures { IsAnswer (HypothesisCases goal.now args.now) result }
{
    match named_by(goal, args) {
        None => Err(RuleStop::No(no_such(args))),
        Some(hypothesis) => of_cases(alloc, goal, args, hypothesis, steps),
    }
}
