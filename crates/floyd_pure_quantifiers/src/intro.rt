ghost use Rattle.std.specs.Prelude.{◌≡◌, ◌∷◌, [], IfOk};
ghost use Rattle.floyd_assert_trees.specs.Meanings.{value_defs};
ghost use Rattle.floyd_goal.specs.Answers.{IsAnswer};
ghost use Rattle.floyd_goal_formulas.specs.Said.{said as said_lem};
ghost use Rattle.floyd_pure_formulas.specs.Keeps.{KeepsTruth};
ghost use Rattle.floyd_pure_formulas.specs.Instances.{IsFitIfPure};
ghost use Rattle.floyd_pure_formulas.specs.Naming.{variable as variable_lem};
ghost use Rattle.floyd_pure_quantifiers.specs.BindingClauses.{TakesIfAny};
ghost use Rattle.floyd_pure_quantifiers.specs.Intro.{IntroRow, introduced as introduced_lem, named as named_lem, supposing as supposing_lem, with_variable as with_variable_lem};
ghost use Rattle.floyd_text.specs.Gives.{RuleGives};
ghost use Rattle.floyd_truth.specs.Replace.{FormulaSortsAgree, puts};

use crate::instances::put;
use floyd_assert_trees::{Binder, BinderList, Defs, SpecTable};
use floyd_goal::{Args, Context, Goal, GoalList, Pure, Said, enriched, says, wrong_goal};
use floyd_pure_formulas::{extended, has_name, taken, variable};
use floyd_text::{Name, RuleStop, Steps};
use floyd_tree::{Formula, FormulaList};
use std::alloc::{AllocError, Global};
use std::sync::ledger::Ledger;

/// The goal with one variable more.
fn with_variable(
    alloc: Global,
    context: &Context,
    binder: Binder,
    target: Formula,
) -> Result<GoalList, AllocError>
    ensures { IfOk result (λ gs. gs ≡ with_variable_lem context.now binder.name binder.sort target ∷ []) }
{
    let mut more = BinderList::new(alloc);
    more.push(binder)?;
    let context = extended(alloc, context, more)?;
    let mut goals = GoalList::new(alloc);
    goals.push(Goal::Pure(Pure { context, target }))?;
    Ok(goals)
}

/// The goal with this variable, if its name is not taken, for the bound name y.
fn named<L: Ledger>(
    alloc: Global,
    context: &Context,
    y: &Name,
    body: &Formula,
    binder: Binder,
    steps: &mut Steps<L>,
) -> Result<GoalList, RuleStop>
    requires { FormulaSortsAgree (puts ((y.now, variable_lem binder.name binder.sort) ∷ [])) body.now }
    ensures { RuleGives (λ gs. gs) result (named_lem context.now binder.name y.now binder.sort body.now) }
{
    if has_name(&binder.name, context.variables.get().as_slice()) {
        return Err(RuleStop::No(taken(&binder.name)?));
    }
    let by = variable(alloc, &binder.name, &binder.sort, steps)?;
    let target = put(alloc, y, body, &by, steps)?;
    Ok(with_variable(alloc, context, binder, target)?)
}

/// The goal with the premise as a hypothesis.
fn supposing(
    alloc: Global,
    context: &Context,
    premise: &Formula,
    conclusion: &Formula,
) -> Result<GoalList, AllocError>
    ensures { IfOk result (λ gs. gs ≡ supposing_lem context.now premise.now conclusion.now ∷ []) }
{
    let mut more = FormulaList::new(alloc);
    more.push(premise.share()?)?;
    let context = enriched(alloc, context, more)?;
    let target = conclusion.share()?;
    let mut goals = GoalList::new(alloc);
    goals.push(Goal::Pure(Pure { context, target }))?;
    Ok(goals)
}

/// The goal where no name is given.
fn unnamed(alloc: Global, context: &Context, target: &Formula) -> Result<GoalList, RuleStop>
    ensures { RuleGives (λ gs. gs) result (introduced_lem context.now [] (said_lem target.now)) }
{
    match says(target) {
        Said::Implication(premise, conclusion) => {
            Ok(supposing(alloc, context, premise, conclusion)?)
        }
        _ => Err(RuleStop::No(wrong_goal())),
    }
}

/// The goal where x is given.
fn naming<L: Ledger>(
    alloc: Global,
    pure: &Pure,
    x: &Name,
    steps: &mut Steps<L>,
) -> Result<GoalList, RuleStop>
    requires { TakesIfAny (said_lem pure.now.target) }
    ensures { RuleGives (λ gs. gs) result (introduced_lem pure.now.context (x.now ∷ []) (said_lem pure.now.target)) }
{
    match says(&pure.target) {
        Said::ForAll(y, s, body) => {
            let name = x.share()?;
            let sort = s.share()?;
            named(alloc, &pure.context, y, body, Binder { name, sort }, steps)
        }
        _ => Err(RuleStop::No(wrong_goal())),
    }
}

#[tactic(auto, using(crate::proofs::Taking::introduced_other))]
fn introduced<L: Ledger>(
    alloc: Global,
    pure: &Pure,
    names: &[Name],
    steps: &mut Steps<L>,
) -> Result<GoalList, RuleStop>
    requires { TakesIfAny (said_lem pure.now.target) }
    ensures { RuleGives (λ gs. gs) result (introduced_lem pure.now.context names.now (said_lem pure.now.target)) }
{
    match names {
        [] => unnamed(alloc, &pure.context, &pure.target),
        [x] => naming(alloc, pure, x, steps),
        _ => Err(RuleStop::No(wrong_goal())),
    }
}

/// Takes the premise of an implication as a hypothesis, or makes the name that is given the variable of a `forall`.
#[tactic(auto, using(crate::proofs::Taking::target_takes))]
pub fn do_intro<L: Ledger>(
    alloc: Global,
    goal: &Goal,
    args: &Args,
    defs: &Defs,
    _specs: &SpecTable,
    steps: &mut Steps<L>,
) -> Result<GoalList, RuleStop>
    requires well_formed { IsFitIfPure (value_defs defs.now) goal.now }
    ensures exact { IsAnswer (IntroRow goal.now args.now) result }
{
    match goal {
        Goal::Pure(pure) => introduced(alloc, pure, args.names.as_slice(), steps),
        _ => Err(RuleStop::No(wrong_goal())),
    }
}

/// A goal is true where it is with the premise, or with the variable.
pub fn intro_holds()
    ensures { KeepsTruth IntroRow }
{}
