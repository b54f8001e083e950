ghost use Rattle.std.specs.Prelude.{◌≡◌, ◌<◌, ◌^◌, IfOk, Ok, length};
ghost use Rattle.floyd_assert_trees.specs.Meanings.{value_defs};
ghost use Rattle.floyd_goal.specs.Answers.{IsAnswer};
ghost use Rattle.floyd_pure_formulas.specs.Scoping.{IsScoped};
ghost use Rattle.floyd_pure_induction.specs.Induction.{AreFew, InductionRow, OfLemma, marked as marked_lem, not_first as not_first_lem, parts_among as parts_among_lem, place_of as place_of_lem, with_mark as with_mark_lem};

use floyd_assert_trees::{Binder, Defs, NameList, SpecTable};
use floyd_goal::{
    Args, Context, Goal, GoalList, Mark, context_of, in_context, intros_first, is_pending,
};
use floyd_pure_formulas::do_destruct;
use floyd_text::{Code, Name, No, RuleStop, Shown, Steps};
use std::alloc::{AllocError, Global};
use std::sync::ledger::Ledger;

/// The refusal of an induction that is not the first command of a lemma.
fn not_first() -> No
    ensures { result ≡ not_first_lem }
{
    No {
        code: Code::NotFirst,
        shown: Shown::Nothing,
    }
}

/// The place of the first variable of that name, from 0.
fn place_of(x: &Name, variables: &[Binder]) -> u32
    requires { length variables.now < 2 ^ 32 }
    ensures { result ≡ place_of_lem x.now variables.now }
{
    'variables: for i in 0..variables.len() {
        if *x == variables[i].name {
            return i as u32;
        }
    }
    0
}

/// The names of the parts: of a list's sublist, or of a tree's subtrees.
fn parts_among(alloc: Global, names: &[Name]) -> Result<NameList, AllocError>
    ensures { IfOk result (λ all. all ≡ parts_among_lem names.now) }
{
    let mut all = NameList::new(alloc);
    match names {
        [_, rest] => {
            all.push(rest.share()?)?;
            Ok(all)
        }
        [left, _, right] => {
            all.push(left.share()?)?;
            all.push(right.share()?)?;
            Ok(all)
        }
        _ => Ok(all),
    }
}

/// The goal with that mark.
fn with_mark(goal: &Goal, mark: Mark) -> Result<Goal, AllocError>
    ensures { IfOk result (λ g. g ≡ with_mark_lem mark goal.now) }
{
    let context = context_of(goal);
    let variables = context.variables.share()?;
    let hypotheses = context.hypotheses.share()?;
    in_context(
        goal,
        Context {
            variables,
            hypotheses,
            mark,
        },
    )
}

/// The goals of the cases, with the lemma for the parts.
fn marked(
    alloc: Global,
    lemma: &Name,
    place: u32,
    parts: NameList,
    goals: GoalList,
) -> Result<GoalList, AllocError>
    ensures { IfOk result (λ gs. marked_lem lemma.now place parts (Ok goals) ≡ Ok gs) }
{
    match goals.as_slice() {
        [a, b] => {
            let none = NameList::new(alloc);
            let first = with_mark(a, Mark::Induction(lemma.share()?, place, none))?;
            let second = with_mark(b, Mark::Induction(lemma.share()?, place, parts))?;
            let mut all = GoalList::new(alloc);
            all.push(first)?;
            all.push(second)?;
            Ok(all)
        }
        _ => Ok(goals),
    }
}

/// The same at the start of that lemma's proof.
fn of_lemma<L: Ledger>(
    alloc: Global,
    goal: &Goal,
    args: &Args,
    defs: &Defs,
    specs: &SpecTable,
    lemma: &Name,
    steps: &mut Steps<L>,
) -> Result<GoalList, RuleStop>
    requires well_formed { IsScoped (value_defs defs.now) goal.now }
    requires few { AreFew goal.now }
    ensures exact { IsAnswer (OfLemma goal.now args.now lemma.now) result }
{
    let place = place_of(&args.name, context_of(goal).variables.get().as_slice());
    let parts = parts_among(alloc, args.names.as_slice())?;
    match do_destruct(alloc, goal, args, defs, specs, steps) {
        Ok(goals) => Ok(marked(alloc, lemma, place, parts, goals)?),
        Err(stop) => Err(stop),
    }
}

/// Proves a lemma by induction on one of its variables of a list or of a tree, as its first command: the goals are those of
/// `destruct`, and in the second one the lemma may be used for the sublist or for the subtrees.
///
/// Pending existentials are 702, and another command before it, or a proof that is no lemma's, is 729; then it is refused
/// as `destruct` is. The goal has fewer than 2^32 variables.
pub fn do_induction<L: Ledger>(
    alloc: Global,
    goal: &Goal,
    args: &Args,
    defs: &Defs,
    specs: &SpecTable,
    steps: &mut Steps<L>,
) -> Result<GoalList, RuleStop>
    requires well_formed { IsScoped (value_defs defs.now) goal.now }
    requires few { AreFew goal.now }
    ensures exact { IsAnswer (InductionRow goal.now args.now) result }
{
    if is_pending(goal) {
        return Err(RuleStop::No(intros_first()));
    }
    match &context_of(goal).mark {
        Mark::Plain => Err(RuleStop::No(not_first())),
        Mark::Start(lemma) => of_lemma(alloc, goal, args, defs, specs, lemma, steps),
        Mark::Induction(_, _, _) => Err(RuleStop::No(not_first())),
    }
}
