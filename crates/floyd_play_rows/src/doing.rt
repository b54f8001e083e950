//! Commands by their rules.
ghost use Rattle.std.specs.Prelude.{◌≡◌, IsTrue};
ghost use Rattle.floyd_goal.specs.Answers.{IsAnswer};
ghost use Rattle.floyd_pure_formulas.specs.Scoping.{IsScoped};
ghost use Rattle.floyd_pure_induction.specs.Induction.{AreFew, InductionRow};
ghost use Rattle.floyd_assert_trees.specs.Meanings.{value_defs};
ghost use Rattle.floyd_play_rows.specs.Conditions.{Meets, MeetsExists};
ghost use Rattle.floyd_play_rows.specs.Rows as rows;
ghost use Rattle.floyd_text.specs.declared.refusal.RuleStop.TheVariants as stops;

use floyd_arrays::{do_join_array, do_split_array};
use floyd_arrays_structs::{do_join_struct, do_split_struct};
use floyd_assert_trees::{Defs, SpecTable};
use floyd_control::{do_forward_if, do_forward_loop, do_forward_switch, do_forward_while};
use floyd_entail::{do_exists, do_facts, do_intros, do_reroot, do_valid, do_weaken};
use floyd_entail_cancel::do_cancel;
use floyd_entail_lemmas::{do_apply, do_apply_ih};
use floyd_entail_predicates::{do_fold, do_unfold};
use floyd_forward::do_forward;
use floyd_goal::context_of;
use floyd_goal_trees::{Args, Goal, GoalList};
use floyd_pure_formulas::{
    do_cut, do_destruct, do_discriminate, do_left, do_mp, do_refl, do_right, do_trivial,
};
use floyd_pure_induction::do_induction;
use floyd_pure_laws::{do_law, do_lia};
use floyd_pure_quantifiers::{
    do_exists as do_exists_pure, do_inject, do_intro, do_specialize, do_split,
};
use floyd_pure_rewriting::do_rewrite;
use floyd_pure_simplifying::do_simpl;
use floyd_pure_unfolding::do_unfold_fun;
use floyd_shares::{do_join_share, do_split_share};
use floyd_text::{Code, No, Rule, RuleStop, Shown, Steps};
use std::alloc::Global;
use std::sync::ledger::Ledger;

/// A goal and the arguments with which a command is tried on it, over what the proof stands on.
#[derive(Clone, Copy)]
pub struct Trial<'a> {
    pub goal: &'a Goal,
    pub args: &'a Args,
    pub defs: &'a Defs,
    pub specs: &'a SpecTable,
}

/// The goals that the command makes, or the refusal of the first condition of its row that fails.
///
/// The goal and the items are well formed, and the arguments such as are read for the command in the goal's context.
pub fn do_row<L: Ledger>(
    alloc: Global,
    rule: Rule,
    trial: Trial<'_>,
    steps: &mut Steps<L>,
) -> Result<GoalList, RuleStop>
    requires meets { Meets trial.defs.now rule trial.goal.now trial.args.now }
    ensures exact { IsAnswer (rows.Row trial.entry.defs.now rule trial.entry.goal.now trial.entry.args.now) result }
{
    let Trial {
        goal,
        args,
        defs,
        specs,
    } = trial;
    match rule {
        Rule::Forward => do_forward(alloc, goal, args, defs, specs, steps),
        Rule::ForwardIf => do_forward_if(alloc, goal, args, defs, specs, steps),
        Rule::ForwardWhile => do_forward_while(alloc, goal, args, defs, specs, steps),
        Rule::ForwardLoop => do_forward_loop(alloc, goal, args, defs, specs, steps),
        Rule::ForwardSwitch => do_forward_switch(alloc, goal, args, defs, specs, steps),
        _ => do_part_row(alloc, rule, trial, steps),
    }
}

fn do_part_row<L: Ledger>(
    alloc: Global,
    rule: Rule,
    trial: Trial<'_>,
    steps: &mut Steps<L>,
) -> Result<GoalList, RuleStop>
    requires meets { Meets trial.defs.now rule trial.goal.now trial.args.now }
    ensures exact { IsAnswer (rows.PartRow trial.entry.defs.now rule trial.entry.goal.now trial.entry.args.now) result }
{
    let Trial {
        goal,
        args,
        defs,
        specs,
    } = trial;
    match rule {
        Rule::Intros => do_intros(alloc, goal, args, defs, specs, steps),
        Rule::Exists => do_any_exists(alloc, trial, steps),
        Rule::Cancel => do_cancel(alloc, goal, args, defs, specs, steps),
        Rule::Weaken => do_weaken(alloc, goal, args, defs, specs, steps),
        Rule::Unfold => do_unfold(alloc, goal, args, defs, specs, steps),
        Rule::Fold => do_fold(alloc, goal, args, defs, specs, steps),
        Rule::Facts => do_facts(alloc, goal, args, defs, specs, steps),
        Rule::Valid => do_valid(alloc, goal, args, defs, specs, steps),
        Rule::Apply => do_apply(alloc, goal, args, defs, specs, steps),
        Rule::ApplyIh => do_apply_ih(alloc, goal, args, defs, specs, steps),
        Rule::Induction => do_any_induction(alloc, trial, steps),
        _ => do_memory_row(alloc, rule, trial, steps),
    }
}

fn do_memory_row<L: Ledger>(
    alloc: Global,
    rule: Rule,
    trial: Trial<'_>,
    steps: &mut Steps<L>,
) -> Result<GoalList, RuleStop>
    requires meets { Meets trial.defs.now rule trial.goal.now trial.args.now }
    ensures exact { IsAnswer (rows.MemoryRow trial.entry.defs.now rule trial.entry.goal.now trial.entry.args.now) result }
{
    let Trial {
        goal,
        args,
        defs,
        specs,
    } = trial;
    match rule {
        Rule::SplitArray => do_split_array(alloc, goal, args, defs, specs, steps),
        Rule::JoinArray => do_join_array(alloc, goal, args, defs, specs, steps),
        Rule::SplitStruct => do_split_struct(alloc, goal, args, defs, specs, steps),
        Rule::JoinStruct => do_join_struct(alloc, goal, args, defs, specs, steps),
        Rule::SplitShare => do_split_share(alloc, goal, args, defs, specs, steps),
        Rule::JoinShare => do_join_share(alloc, goal, args, defs, specs, steps),
        Rule::Reroot => do_reroot(alloc, goal, args, defs, specs, steps),
        _ => do_hypothesis_row(alloc, rule, trial, steps),
    }
}

fn do_hypothesis_row<L: Ledger>(
    alloc: Global,
    rule: Rule,
    trial: Trial<'_>,
    steps: &mut Steps<L>,
) -> Result<GoalList, RuleStop>
    requires meets { Meets trial.defs.now rule trial.goal.now trial.args.now }
    ensures exact { IsAnswer (rows.HypothesisRow trial.entry.defs.now rule trial.entry.goal.now trial.entry.args.now) result }
{
    let Trial {
        goal,
        args,
        defs,
        specs,
    } = trial;
    match rule {
        Rule::Law => do_law(alloc, goal, args, defs, specs, steps),
        Rule::Rewrite => do_rewrite(alloc, goal, args, defs, specs, steps),
        Rule::Cut => do_cut(alloc, goal, args, defs, specs, steps),
        Rule::Destruct => do_destruct(alloc, goal, args, defs, specs, steps),
        Rule::Specialize => do_specialize(alloc, goal, args, defs, specs, steps),
        Rule::Mp => do_mp(alloc, goal, args, defs, specs, steps),
        Rule::UnfoldFun => do_unfold_fun(alloc, goal, args, defs, specs, steps),
        Rule::Discriminate => do_discriminate(alloc, goal, args, defs, specs, steps),
        Rule::Inject => do_inject(alloc, goal, args, defs, specs, steps),
        _ => do_pure_row(alloc, rule, trial, steps),
    }
}

fn do_pure_row<L: Ledger>(
    alloc: Global,
    rule: Rule,
    trial: Trial<'_>,
    steps: &mut Steps<L>,
) -> Result<GoalList, RuleStop>
    requires meets { Meets trial.defs.now rule trial.goal.now trial.args.now }
    ensures exact { IsAnswer (rows.PureRow trial.entry.defs.now rule trial.entry.goal.now trial.entry.args.now) result }
{
    let Trial {
        goal,
        args,
        defs,
        specs,
    } = trial;
    match rule {
        Rule::Refl => do_refl(alloc, goal, args, defs, specs, steps),
        Rule::Trivial => do_trivial(alloc, goal, args, defs, specs, steps),
        Rule::Intro => do_intro(alloc, goal, args, defs, specs, steps),
        Rule::Left => do_left(alloc, goal, args, defs, specs, steps),
        Rule::Right => do_right(alloc, goal, args, defs, specs, steps),
        Rule::Split => do_split(alloc, goal, args, defs, specs, steps),
        Rule::Simpl => do_simpl(alloc, goal, args, defs, specs, steps),
        Rule::Lia => do_lia(alloc, goal, args, defs, specs, steps),
        _ => Err(not_built()),
    }
}

/// `Exists`, which is another call on a Pure goal.
fn do_any_exists<L: Ledger>(
    alloc: Global,
    trial: Trial<'_>,
    steps: &mut Steps<L>,
) -> Result<GoalList, RuleStop>
    requires meets { MeetsExists trial.defs.now trial.goal.now trial.args.now }
    ensures exact { IsAnswer (rows.ExistsOn trial.entry.goal.now trial.entry.args.now) result }
{
    let Trial {
        goal,
        args,
        defs,
        specs,
    } = trial;
    match goal {
        Goal::Pure(_) => do_exists_pure(alloc, goal, args, defs, specs, steps),
        Goal::Entail(_) => do_exists(alloc, goal, args, defs, specs, steps),
        Goal::Run(_) => do_exists(alloc, goal, args, defs, specs, steps),
    }
}

/// Whether the variables of the goal can be numbered. More of them find no room in memory.
fn are_few(goal: &Goal) -> bool
    ensures { IsTrue result → AreFew goal.now }
{
    context_of(goal).variables.get().len() < 4_294_967_296
}

/// `induction`.
fn do_any_induction<L: Ledger>(
    alloc: Global,
    trial: Trial<'_>,
    steps: &mut Steps<L>,
) -> Result<GoalList, RuleStop>
    requires meets { IsScoped (value_defs trial.defs.now) trial.goal.now }
    ensures exact { IsAnswer (InductionRow trial.entry.goal.now trial.entry.args.now) result }
{
    if !are_few(trial.goal) {
        return Err(RuleStop::Memory);
    }
    do_induction(
        alloc,
        trial.goal,
        trial.args,
        trial.defs,
        trial.specs,
        steps,
    )
}

/// The refusal of a command that is not built yet.
fn not_built() -> RuleStop
    ensures { result ≡ stops.No rows.not_built }
{
    RuleStop::No(No {
        code: Code::NotBuilt,
        shown: Shown::Nothing,
    })
}
