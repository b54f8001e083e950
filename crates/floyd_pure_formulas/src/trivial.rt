ghost use Rattle.std.specs.Prelude.{◌↔◌, IsTrue};
ghost use Rattle.floyd_goal.specs.Answers.{IsAnswer};
ghost use Rattle.floyd_pure_formulas.specs.Keeps.{KeepsTruth};
ghost use Rattle.floyd_pure_formulas.specs.Trivial.{HasAbsurd, IsTrivial, TrivialRow};

use floyd_assert_trees::{Defs, SpecTable};
use floyd_goal::{Args, Goal, GoalList, Pure, drops, is_absurd, wrong_goal};
use floyd_text::{Code, No, RuleStop, Shown, Steps};
use floyd_tree::Formula;
use std::alloc::Global;
use std::sync::ledger::Ledger;

/// Whether some hypothesis is False.
fn has_absurd(hypotheses: &[Formula]) -> bool
    ensures { IsTrue result ↔ HasAbsurd hypotheses.now }
{
    'hypotheses: for hypothesis in hypotheses {
        if is_absurd(hypothesis) {
            return true;
        }
    }
    false
}

fn is_trivial(pure: &Pure) -> bool
    ensures { IsTrue result ↔ IsTrivial pure.now }
{
    let hypotheses = pure.context.hypotheses.get().as_slice();
    drops(hypotheses, &pure.target) || has_absurd(hypotheses)
}

/// Closes a goal that needs no proof, and every goal under a hypothesis False.
pub fn do_trivial<L: Ledger>(
    alloc: Global,
    goal: &Goal,
    args: &Args,
    _defs: &Defs,
    _specs: &SpecTable,
    _steps: &mut Steps<L>,
) -> Result<GoalList, RuleStop>
    ensures exact { IsAnswer (TrivialRow goal.now args.now) result }
{
    let Goal::Pure(pure) = goal else {
        return Err(RuleStop::No(wrong_goal()));
    };
    if is_trivial(pure) {
        Ok(GoalList::new(alloc))
    } else {
        Err(RuleStop::No(No {
            code: Code::NotTrivial,
            shown: Shown::Nothing,
        }))
    }
}

/// A goal that is closed is true.
pub fn trivial_holds()
    ensures { KeepsTruth TrivialRow }
{}
