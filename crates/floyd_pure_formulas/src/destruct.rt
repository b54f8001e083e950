ghost use Rattle.floyd_assert_trees.specs.Meanings.{value_defs};
ghost use Rattle.floyd_goal.specs.Answers.{IsAnswer};
ghost use Rattle.floyd_pure_formulas.specs.Destruct.{DestructRow};
ghost use Rattle.floyd_pure_formulas.specs.Keeps.{KeepsTruth};
ghost use Rattle.floyd_pure_formulas.specs.Scoping.{IsScoped};
ghost use Rattle.floyd_pure_formulas.specs.Splits.{HypothesisSplits};

use crate::hypothesis_cases::hypothesis_cases;
use crate::variable_cases::variable_cases;
use floyd_assert_trees::{Defs, SpecTable};
use floyd_goal::{Args, Goal, GoalList, Target, intros_first, is_pending};
use floyd_text::{RuleStop, Steps};
use std::alloc::Global;
use std::sync::ledger::Ledger;

/// Goes through the cases of a hypothesis, or of a variable of a list or a tree. A hypothesis that is an `and` gives both
/// formulas, an `or` a goal for each, False none, and with a name for its variable an `exists` gives its formula. A variable
/// gives a goal for each constructor, in which it is replaced everywhere.
///
/// After pending existentials a hypothesis is refused by 724 where it is absent or of another form, and a variable by 701
/// where there is none or it is of another sort; then another number of names is 706, and a name that is taken 707.
#[tactic(auto, using(crate::proofs::RowAnswers::destruct_pending, crate::proofs::RowAnswers::destruct_nothing, crate::proofs::RowAnswers::destruct_part, crate::proofs::RowAnswers::destruct_hypothesis))]
pub fn do_destruct<L: Ledger>(
    alloc: Global,
    goal: &Goal,
    args: &Args,
    defs: &Defs,
    _specs: &SpecTable,
    steps: &mut Steps<L>,
) -> Result<GoalList, RuleStop>
    requires well_formed { IsScoped (value_defs defs.now) goal.now }
    ensures exact { IsAnswer (DestructRow goal.now args.now) result }
{
    if is_pending(goal) {
        return Err(RuleStop::No(intros_first()));
    }
    match args.target {
        Target::Nothing => variable_cases(alloc, goal, args, steps),
        Target::Part(_) => variable_cases(alloc, goal, args, steps),
        Target::Hypothesis(_) => hypothesis_cases(alloc, goal, args, steps),
    }
}

/// The cases of a hypothesis are all: under all data under which the hypotheses of a goal are true, some case is so.
pub fn destruct_splits()
    ensures { HypothesisSplits }
{}

/// A goal is true where it is in each case.
pub fn destruct_holds()
    ensures { KeepsTruth DestructRow }
{}
