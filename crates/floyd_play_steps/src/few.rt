//! Goals whose assertions have few existentials, and which have few variables.
ghost use Rattle.std.specs.Prelude.{IsTrue, ◌^◌};
ghost use Rattle.floyd_goal_bounds.specs.Bounds.{AreAtMost, ExitAtMost, ExitsAtMost};
ghost use Rattle.floyd_play_steps.specs.Few.{AllHaveFew, HasFew, HasFewOfBoth, HasFewVariables};

use floyd_assert_trees::Assertion;
use floyd_goal::context_of;
use floyd_goal_trees::{Exit, Exits, Goal};

fn has_few(assertion: &Assertion) -> bool
    ensures { IsTrue result → AreAtMost (2 ^ 32) assertion.now }
{
    assertion.existentials.len() <= 4_294_967_296
}

fn exit_has_few(exit: &Exit) -> bool
    ensures { IsTrue result → ExitAtMost (2 ^ 32) exit.now }
{
    match exit {
        Exit::None => true,
        Exit::To(assertion) => has_few(assertion.get()),
        Exit::End => true,
    }
}

fn exits_have_few(exits: &Exits) -> bool
    ensures { IsTrue result → ExitsAtMost (2 ^ 32) exits.now }
{
    exit_has_few(&exits.normal)
        && exit_has_few(&exits.brk)
        && exit_has_few(&exits.cont)
        && has_few(exits.ret.post.get())
}

fn existentials_are_few(goal: &Goal) -> bool
    ensures { IsTrue result → HasFew goal.now }
{
    match goal {
        Goal::Run(run) => has_few(run.source.get()) && exits_have_few(run.exits.get()),
        Goal::Entail(entail) => has_few(entail.source.get()) && has_few(entail.target.get()),
        Goal::Pure(_) => true,
    }
}

fn variables_are_few(goal: &Goal) -> bool
    ensures { IsTrue result → HasFewVariables goal.now }
{
    context_of(goal).variables.get().len() <= 4_294_967_296
}

fn goal_has_few(goal: &Goal) -> bool
    ensures { IsTrue result → HasFewOfBoth goal.now }
{
    existentials_are_few(goal) && variables_are_few(goal)
}

/// Whether all goals have few existentials and variables. What has more of them finds no room in memory.
pub(crate) fn all_have_few(goals: &[Goal]) -> bool
    ensures { IsTrue result → AllHaveFew goals.now }
{
    'goals: for goal in goals {
        if !goal_has_few(goal) {
            return false;
        }
    }
    true
}
