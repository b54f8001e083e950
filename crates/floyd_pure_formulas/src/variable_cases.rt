ghost use Rattle.std.specs.Prelude.{◌≡◌, ◌∷◌, [], Some, IfOk};
ghost use Rattle.floyd_goal.specs.Sides.{context_of as context_of_lem};
ghost use Rattle.floyd_goal_changes.specs.Changed.{GoalSortsAgree};
ghost use Rattle.floyd_pure_formulas.specs.ConstructorsClauses.{AreOf, IsBuilt, TakesIn};
ghost use Rattle.floyd_pure_formulas.specs.VariableCases.{both_cases as both_cases_lem, built as built_lem, case_with as case_with_lem, exchanged as exchanged_lem, mark_without as mark_without_lem, names_without as names_without_lem, of_constructors as of_constructors_lem, sort_named as sort_named_lem, variable_cases as variable_cases_lem, without as without_lem};
ghost use Rattle.floyd_text.specs.Gives.{RuleGives};
ghost use Rattle.floyd_tree_sorts.specs.declared.sorts.Sort as s;
ghost use Rattle.floyd_truth.specs.Replace.{puts};

use crate::constructors::{Constructors, binders, built, constructors_of, first_taken, sort_named};
use crate::hypothesis_cases::wrong_names;
use crate::naming::taken;
use floyd_assert_trees::{Binder, BinderList, NameList, share_binders};
use floyd_goal::{Args, Context, Goal, GoalList, Mark, context_of, in_context, wrong_goal};
use floyd_goal_changes::change_goal;
use floyd_text::{Name, RuleStop, Shared, Steps};
use floyd_tree::{Sort, Term};
use std::alloc::{AllocError, Global};
use std::sync::ledger::Ledger;

/// The variables but x.
fn without(alloc: Global, x: &Name, variables: &[Binder]) -> Result<BinderList, AllocError>
    ensures { IfOk result (λ all. all ≡ without_lem x.now variables.now) }
{
    let mut all = BinderList::new(alloc);
    'variables: for binder in variables {
        if *x != binder.name {
            all.push(binder.share()?)?;
        }
    }
    Ok(all)
}

/// The names but x.
fn names_without(alloc: Global, x: &Name, names: &[Name]) -> Result<NameList, AllocError>
    ensures { IfOk result (λ all. all ≡ names_without_lem x.now names.now) }
{
    let mut all = NameList::new(alloc);
    'names: for name in names {
        if x != name {
            all.push(name.share()?)?;
        }
    }
    Ok(all)
}

/// The mark, where x is no variable for which the lemma may be used.
fn mark_without(alloc: Global, x: &Name, mark: &Mark) -> Result<Mark, AllocError>
    ensures { IfOk result (λ m. m ≡ mark_without_lem x.now mark.now) }
{
    match mark {
        Mark::Plain => Ok(Mark::Plain),
        Mark::Start(name) => Ok(Mark::Start(name.share()?)),
        Mark::Induction(name, place, names) => {
            let name = name.share()?;
            let names = names_without(alloc, x, names.as_slice())?;
            Ok(Mark::Induction(name, *place, names))
        }
    }
}

/// The context with these variables in place of x, last.
fn exchanged(
    alloc: Global,
    x: &Name,
    new: &[Binder],
    context: &Context,
) -> Result<Context, AllocError>
    ensures { IfOk result (λ c. c ≡ exchanged_lem x.now new.now context.now) }
{
    let mut all = without(alloc, x, context.variables.get().as_slice())?;
    all.append(share_binders(alloc, new)?)?;
    let variables = Shared::new(alloc, all)?;
    let hypotheses = context.hypotheses.share()?;
    let mark = mark_without(alloc, x, &context.mark)?;
    Ok(Context {
        variables,
        hypotheses,
        mark,
    })
}

/// The goal with this term, of these variables, in place of x.
fn case_with<L: Ledger>(
    alloc: Global,
    goal: &Goal,
    x: &Name,
    term: &Term,
    new: &[Binder],
    steps: &mut Steps<L>,
) -> Result<Goal, RuleStop>
    requires { GoalSortsAgree (puts ((x.now, term.now) ∷ [])) goal.now }
    ensures { RuleGives (λ g. g) result (case_with_lem goal.now x.now term.now new.now) }
{
    let by = [(x.share()?, term.share()?)];
    match change_goal(alloc, goal, &by, steps) {
        Ok(changed) => {
            let context = exchanged(alloc, x, new, context_of(&changed))?;
            Ok(in_context(&changed, context)?)
        }
        Err(stop) => Err(stop),
    }
}

/// The goal for each constructor.
fn both_cases<L: Ledger>(
    alloc: Global,
    goal: &Goal,
    x: &Name,
    c: &Constructors,
    new: &[Binder],
    steps: &mut Steps<L>,
) -> Result<GoalList, RuleStop>
    requires empty { GoalSortsAgree (puts ((x.now, c.now.empty) ∷ [])) goal.now }
    requires built { GoalSortsAgree (puts ((x.now, built_lem c.now new.now) ∷ [])) goal.now }
    requires made { IsBuilt (built_lem c.now new.now) }
    ensures { RuleGives (λ gs. gs) result (both_cases_lem goal.now x.now c.now new.now) }
{
    let first = match case_with(alloc, goal, x, &c.empty, &[], steps) {
        Ok(first) => first,
        Err(stop) => return Err(stop),
    };
    let term = built(alloc, &c.head, new, steps)?;
    match case_with(alloc, goal, x, &term, new, steps) {
        Ok(second) => {
            let mut goals = GoalList::new(alloc);
            goals.push(first)?;
            goals.push(second)?;
            Ok(goals)
        }
        Err(stop) => Err(stop),
    }
}

/// The same, where the names are as many as the arguments, and new.
#[tactic(auto, using(crate::proofs::VariableAnswers::built_agrees, crate::proofs::VariableAnswers::empty_agrees, crate::proofs::VariableAnswers::built_made, crate::proofs::VariableAnswers::wrong_count, crate::proofs::VariableAnswers::name_taken, crate::proofs::VariableAnswers::cases_are))]
fn of_binders<L: Ledger>(
    alloc: Global,
    goal: &Goal,
    args: &Args,
    c: &Constructors,
    sort: &Sort,
    steps: &mut Steps<L>,
) -> Result<GoalList, RuleStop>
    requires of { AreOf sort.now c.now }
    requires takes { TakesIn goal.now args.now.name sort.now }
    ensures { RuleGives (λ gs. gs) result (of_constructors_lem goal.now args.now.name args.now.names (Some c.now)) }
{
    let Some(new) = binders(alloc, args.names.as_slice(), c.sorts.as_slice())? else {
        return Err(RuleStop::No(wrong_names()));
    };
    let new = new.as_slice();
    match first_taken(context_of(goal).variables.get().as_slice(), new) {
        Some(name) => Err(RuleStop::No(taken(name)?)),
        None => both_cases(alloc, goal, &args.name, c, new, steps),
    }
}

/// The goals of the cases of a variable.
pub fn variable_cases<L: Ledger>(
    alloc: Global,
    goal: &Goal,
    args: &Args,
    steps: &mut Steps<L>,
) -> Result<GoalList, RuleStop>
    requires { (s : s.Sort) → sort_named_lem args.now.name (context_of_lem goal.now).variables ≡ Some s → TakesIn goal.now args.now.name s }
    ensures { RuleGives (λ gs. gs) result (variable_cases_lem goal.now args.now) }
{
    let Some(sort) = sort_named(&args.name, context_of(goal).variables.get().as_slice()) else {
        return Err(RuleStop::No(wrong_goal()));
    };
    match constructors_of(alloc, sort, steps)? {
        Some(c) => of_binders(alloc, goal, args, &c, sort, steps),
        None => Err(RuleStop::No(wrong_goal())),
    }
}
