//! What commands answer.
ghost use Rattle.std.specs.Prelude.{◌≡◌};
ghost use Rattle.tests_pure.specs.Scoped.{IsFound, is_pure as is_pure_lem};

use crate::goals::{no_defs, no_specs};
use crate::scoped::Found;
use floyd_goal::{Args, Goal, GoalList};
use floyd_pure::{
    do_cut, do_destruct, do_discriminate, do_exists, do_inject, do_intro, do_law, do_left, do_lia,
    do_mp, do_refl, do_rewrite, do_right, do_simpl, do_specialize, do_split, do_trivial,
};
use floyd_text::{RuleStop, Steps};
use std::alloc::Global;
use std::sync::ledger::Ledger;
use tests_terms::Stop;

/// What a command answers.
type Answer = Result<GoalList, RuleStop>;

/// A goal, what is known of it, and what a command is given.
pub struct Trial {
    pub goal: Goal,
    pub found: Found,
    pub args: Args,
}

impl Drop for Trial {
    fn drop(self) {
        let Trial {
            goal,
            found: _,
            args,
        } = self;
        drop(goal);
        drop(args);
    }
}

/// What `specialize` answers. The hypotheses of the goal must be well formed.
fn specialized<L: Ledger>(
    alloc: Global,
    trial: &Trial,
    steps: &mut Steps<L>,
) -> Result<Answer, Stop>
    requires { IsFound trial.now.goal trial.now.found }
{
    let defs = &no_defs(alloc);
    let specs = &no_specs(alloc);
    if trial.found.hypotheses {
        Ok(do_specialize(alloc, &trial.goal, &trial.args, defs, specs, steps))
    } else {
        Err(Stop::Unreadable)
    }
}

/// What `destruct` answers. All of the goal must be well formed.
fn destructed<L: Ledger>(alloc: Global, trial: &Trial, steps: &mut Steps<L>) -> Result<Answer, Stop>
    requires { IsFound trial.now.goal trial.now.found }
{
    let defs = &no_defs(alloc);
    let specs = &no_specs(alloc);
    if trial.found.hypotheses && trial.found.target && trial.found.rest {
        Ok(do_destruct(alloc, &trial.goal, &trial.args, defs, specs, steps))
    } else {
        Err(Stop::Unreadable)
    }
}

/// What `intro` answers. The target of the goal must be well formed.
fn introduced<L: Ledger>(alloc: Global, trial: &Trial, steps: &mut Steps<L>) -> Result<Answer, Stop>
    requires { IsFound trial.now.goal trial.now.found }
{
    let defs = &no_defs(alloc);
    let specs = &no_specs(alloc);
    if trial.found.target {
        Ok(do_intro(alloc, &trial.goal, &trial.args, defs, specs, steps))
    } else {
        Err(Stop::Unreadable)
    }
}

fn is_pure(goal: &Goal) -> bool
    ensures { result ≡ is_pure_lem goal.now }
{
    match goal {
        Goal::Pure(_) => true,
        _ => false,
    }
}

/// What `Exists` answers on a Pure goal, whose target must be well formed.
#[tactic(auto, using(crate::proofs::ScopedLemmas::pure_is))]
fn witnessed<L: Ledger>(alloc: Global, trial: &Trial, steps: &mut Steps<L>) -> Result<Answer, Stop>
    requires { IsFound trial.now.goal trial.now.found }
{
    let defs = &no_defs(alloc);
    let specs = &no_specs(alloc);
    if is_pure(&trial.goal) && trial.found.target {
        Ok(do_exists(alloc, &trial.goal, &trial.args, defs, specs, steps))
    } else {
        Err(Stop::Unreadable)
    }
}

/// What a command on the target answers that asks nothing of its goal.
fn on_target<L: Ledger>(
    alloc: Global,
    word: &str,
    trial: &Trial,
    steps: &mut Steps<L>,
) -> Result<Answer, Stop> {
    let defs = &no_defs(alloc);
    let specs = &no_specs(alloc);
    let (goal, args) = (&trial.goal, &trial.args);
    match word {
        "refl" => Ok(do_refl(alloc, goal, args, defs, specs, steps)),
        "trivial" => Ok(do_trivial(alloc, goal, args, defs, specs, steps)),
        "left" => Ok(do_left(alloc, goal, args, defs, specs, steps)),
        "right" => Ok(do_right(alloc, goal, args, defs, specs, steps)),
        "split" => Ok(do_split(alloc, goal, args, defs, specs, steps)),
        "lia" => Ok(do_lia(alloc, goal, args, defs, specs, steps)),
        _ => Err(Stop::Unreadable),
    }
}

/// What another command answers that asks nothing of its goal.
fn on_hypotheses<L: Ledger>(
    alloc: Global,
    word: &str,
    trial: &Trial,
    steps: &mut Steps<L>,
) -> Result<Answer, Stop> {
    let defs = &no_defs(alloc);
    let specs = &no_specs(alloc);
    let (goal, args) = (&trial.goal, &trial.args);
    match word {
        "cut" => Ok(do_cut(alloc, goal, args, defs, specs, steps)),
        "mp" => Ok(do_mp(alloc, goal, args, defs, specs, steps)),
        "discriminate" => Ok(do_discriminate(alloc, goal, args, defs, specs, steps)),
        "inject" => Ok(do_inject(alloc, goal, args, defs, specs, steps)),
        "law" => Ok(do_law(alloc, goal, args, defs, specs, steps)),
        "rewrite" => Ok(do_rewrite(alloc, goal, args, defs, specs, steps)),
        "simpl" => Ok(do_simpl(alloc, goal, args, defs, specs, steps)),
        _ => on_target(alloc, word, trial, steps),
    }
}

/// What the command of that word answers.
pub fn answer_of<L: Ledger>(
    alloc: Global,
    word: &str,
    trial: &Trial,
    steps: &mut Steps<L>,
) -> Result<Answer, Stop>
    requires { IsFound trial.now.goal trial.now.found }
{
    match word {
        "specialize" => specialized(alloc, trial, steps),
        "destruct" => destructed(alloc, trial, steps),
        "intro" => introduced(alloc, trial, steps),
        "Exists" => witnessed(alloc, trial, steps),
        _ => on_hypotheses(alloc, word, trial, steps),
    }
}
