//! Proofs played.
ghost use Rattle.std.specs.Prelude.{◌≡◌, ◌≤◌, [], length, take, Ok, IfOk, OnOk};
ghost use Rattle.std.specs.List.{AllByRecursion};
ghost use Rattle.floyd_goal.specs.Stacks.{most};
ghost use Rattle.floyd_assert_trees.specs.Sizes.{sum_of};
ghost use Rattle.floyd_goal_trees.specs.Sizes.{goal_size};
ghost use Rattle.floyd_play_steps.specs.Plays as plays;
ghost use Rattle.floyd_play_steps.specs.PlayClauses.{start_halt as start_halt_lem};
ghost use Rattle.floyd_play_steps.specs.Derivations.{Derives, HasDerivation};
ghost use Rattle.floyd_play_steps.specs.Few.{AllHaveFew};
ghost use Rattle.floyd_play_steps.specs.Forms.{AreWellFormed, ArgumentsMeet, CommandsKeepForms, IsCommand};
ghost use Rattle.floyd_play_reading.specs.Answers.{IsAnswer};
ghost use Rattle.floyd_text.specs.Gives.{Gives};

use crate::advancing::{Basis, advance, few_of};
use crate::few::all_have_few;
use crate::numbers::NumberList;
use crate::shot::{Shot, shot_of};
use crate::state::{PlayState, Start};
use floyd_assert_trees::{Defs, SpecTable};
use floyd_goal::GoalStack;
use floyd_script_trees::{Command, Proof};
use floyd_text::{Code, Halt, Place, Refusal, RuleStop, Shared, Shown};
use std::alloc::Global;

/// The refusal of start goals.
fn start_halt(place: Place, stop: &RuleStop) -> Halt
    ensures { result ≡ start_halt_lem place stop.now }
{
    match stop {
        RuleStop::No(_) => Halt::Refused(Refusal::at(Code::GoalsTooLarge, place, Shown::Nothing)),
        RuleStop::Memory => Halt::Memory,
    }
}

/// The start goals, whose numbers begin with 1.
fn started(alloc: Global, place: Place, start: Start) -> Result<PlayState, Halt>
    ensures exact { Gives (λ s. s) result (plays.started place start) }
    ensures few { IfOk result (λ s. AllHaveFew s.stack) }
{
    let (goals, blocks) = start.into_parts();
    if !all_have_few(goals.as_slice()) {
        return Err(Halt::Memory);
    }
    let count = goals.len();
    let mut stack = GoalStack::new(alloc);
    match stack.push(goals) {
        Ok(()) => {
            let made = few_of(&stack, count);
            let numbers = NumberList::new(alloc).with_made(0, made)?;
            let blocks = Shared::new(alloc, blocks)?;
            Ok(PlayState {
                stack,
                made,
                numbers,
                blocks,
            })
        }
        Err(stop) => Err(start_halt(place, &stop)),
    }
}

/// Commands one after another.
fn play_commands(
    alloc: Global,
    basis: Basis<'_>,
    commands: &[Command],
    state: PlayState,
) -> Result<PlayState, Halt>
    requires few { length commands.now ≤ 1000000 }
    requires script { AllByRecursion IsCommand commands.now }
    requires goals { AreWellFormed basis.defs.now basis.specs.now state.stack }
    requires existentials { AllHaveFew state.stack }
    requires left { sum_of goal_size state.stack ≤ most }
    requires made { state.made ≡ length state.stack }
    requires meet { ArgumentsMeet basis.defs.now basis.specs.now }
    requires keep { CommandsKeepForms basis.defs.now basis.specs.now }
    ensures exact { IsAnswer (plays.Goes basis.entry.defs.now basis.entry.specs.now commands.now (Ok state)) result }
    ensures derived { IfOk result (λ last. Derives basis.entry.defs.now basis.entry.specs.now state.blocks last.stack → Derives basis.entry.defs.now basis.entry.specs.now state.blocks state.stack) }
{
    let mut current = state;
    'commands: for command in commands {
        current = advance(alloc, &current, command, basis.defs, basis.specs)?;
    }
    Ok(current)
}

/// Commands one after another on a proof's start.
fn play_from(
    alloc: Global,
    basis: Basis<'_>,
    place: Place,
    commands: &[Command],
    start: Start,
) -> Result<PlayState, Halt>
    requires few { length commands.now ≤ 1000000 }
    requires script { AllByRecursion IsCommand commands.now }
    requires goals { AreWellFormed basis.defs.now basis.specs.now start.goals }
    requires meet { ArgumentsMeet basis.defs.now basis.specs.now }
    requires keep { CommandsKeepForms basis.defs.now basis.specs.now }
    ensures exact { IsAnswer (plays.Plays basis.entry.defs.now basis.entry.specs.now place commands.now start) result }
    ensures derived { IfOk result (λ last. last.stack ≡ [] → HasDerivation basis.entry.defs.now basis.entry.specs.now start) }
{
    let state = started(alloc, place, start)?;
    play_commands(alloc, basis, commands, state)
}

/// At QED nothing is left.
fn at_end(state: &PlayState, end: Place) -> Result<(), Halt>
    ensures exact { Gives (λ done. done) result (plays.at_end end (Ok state.now)) }
    ensures none { OnOk result (state.now.stack ≡ []) }
{
    match state.stack.left() {
        0 => Ok(()),
        left => Err(Halt::Refused(Refusal::at(Code::OpenGoals, end, Shown::Count(left as u64)))),
    }
}

/// Plays a proof on its start: its commands in order, each as `advance` does, up to the first refusal, and then its QED.
///
/// A start beyond the limit on goals is 801 at the proof's name. Goals that are left at QED are 610 there, with their
/// count. A proof that is done has a derivation: its start goals are reached from nothing by the rows.
///
/// The proof is one of a script that was read. The start goals are well formed over `defs` and `specs`, over which
/// what was read is such as the calls of commands ask for, and commands keep goals well formed.
pub fn play(
    alloc: Global,
    proof: &Proof,
    start: Start,
    defs: &Defs,
    specs: &SpecTable,
) -> Result<(), Halt>
    requires few { length proof.now.commands ≤ 1000000 }
    requires script { AllByRecursion IsCommand proof.now.commands }
    requires goals { AreWellFormed defs.now specs.now start.goals }
    requires meet { ArgumentsMeet defs.now specs.now }
    requires keep { CommandsKeepForms defs.now specs.now }
    ensures exact { IsAnswer (plays.IsPlayed defs.now specs.now proof.now start) result }
    ensures derived { OnOk result (HasDerivation defs.now specs.now start) }
{
    let basis = Basis { defs, specs };
    let state = play_from(alloc, basis, proof.place, proof.commands.as_slice(), start)?;
    at_end(&state, proof.end)
}

/// What is shown behind so many commands of a proof, or the first refusal on the way, as `play` has it.
///
/// The proof has at least so many commands; else as `play`.
pub fn play_to(
    alloc: Global,
    proof: &Proof,
    start: Start,
    defs: &Defs,
    specs: &SpecTable,
    commands: u32,
) -> Result<Shot, Halt>
    requires some { commands ≤ length proof.now.commands }
    requires few { length proof.now.commands ≤ 1000000 }
    requires script { AllByRecursion IsCommand proof.now.commands }
    requires goals { AreWellFormed defs.now specs.now start.goals }
    requires meet { ArgumentsMeet defs.now specs.now }
    requires keep { CommandsKeepForms defs.now specs.now }
    ensures exact { IsAnswer (plays.IsShown defs.now specs.now proof.now start commands) result }
{
    let basis = Basis { defs, specs };
    let first = &proof.commands.as_slice()[..commands as usize];
    let state = play_from(alloc, basis, proof.place, first, start)?;
    let shot = shot_of(alloc, &state)?;
    Ok(shot)
}
