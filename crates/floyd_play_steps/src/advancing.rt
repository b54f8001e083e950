//! One command of a play.
ghost use Rattle.std.specs.Prelude.{◌≡◌, ◌≤◌, ◌<◌, ◌^◌, length, IfOk};
ghost use Rattle.floyd_goal.specs.Stacks.{most};
ghost use Rattle.floyd_goal_forms.specs.Goals.{IsWellFormed};
ghost use Rattle.floyd_play_steps.specs.Few.{AllHaveFew};
ghost use Rattle.floyd_play_steps.specs.StepClauses.{halt_of as halt_of_lem};
ghost use Rattle.floyd_play_steps.specs.Steps as stepping;
ghost use Rattle.floyd_play_steps.specs.Forms.{ArgumentsMeet, IsCommand};
ghost use Rattle.floyd_play_reading.specs.Answers.{IsAnswer};
ghost use Rattle.floyd_text.specs.Gives.{Gives};

use crate::few::all_have_few;
use crate::state::PlayState;
use floyd_assert_trees::{Defs, SpecTable};
use floyd_goal::GoalStack;
use floyd_goal_trees::{Goal, GoalList};
use floyd_play_reading::read_arguments;
use floyd_play_rows::{Trial, do_row};
use floyd_script_trees::Command;
use floyd_text::{Code, Halt, No, RuleStop, Shown, Steps};
use std::alloc::Global;
use std::marker::Brand;
use std::mem;
use std::sync::ledger::{Blank, Ledger};

/// What a proof stands on.
#[derive(Clone, Copy)]
pub(crate) struct Basis<'a> {
    pub defs: &'a Defs,
    pub specs: &'a SpecTable,
}

/// The refusal of a command that meets no goal.
fn no_goal() -> No
    ensures { result ≡ stepping.no_goal }
{
    No {
        code: Code::NoGoal,
        shown: Shown::Nothing,
    }
}

/// The refusal of a rule, at its command and goal.
fn halt_of(command: &Command, number: u32, mut stop: RuleStop) -> Halt
    ensures { result ≡ halt_of_lem command.now number stop }
{
    match &mut stop {
        RuleStop::No(no) => {
            let no = mem::replace(no, no_goal());
            Halt::Refused(no.of(command.rule, command.place, number))
        }
        RuleStop::Memory => Halt::Memory,
    }
}

/// What the command makes of the first goal.
fn made_by<L: Ledger>(
    alloc: Global,
    basis: Basis<'_>,
    state: &PlayState,
    goal: &Goal,
    command: &Command,
    steps: &mut Steps<L>,
) -> Result<GoalList, Halt>
    requires command { IsCommand command.now }
    requires goal { IsWellFormed basis.defs.now basis.specs.now goal.now }
    requires meet { ArgumentsMeet basis.defs.now basis.specs.now }
    ensures exact { IsAnswer (stepping.Makes command.now state.now basis.entry.defs.now basis.entry.specs.now goal.now) result }
{
    let blocks = state.blocks.get().as_slice();
    let args = read_arguments(alloc, goal, command, basis.defs, basis.specs, blocks)?;
    let trial = Trial {
        goal,
        args: &args,
        defs: basis.defs,
        specs: basis.specs,
    };
    match do_row(alloc, command.rule, trial, steps) {
        Ok(made) => Ok(made),
        Err(stop) => Err(halt_of(command, state.numbers.first(), stop)),
    }
}

/// The count of some of the goals that are left, which are few.
pub(crate) fn few_of(stack: &GoalStack, count: usize) -> u32
    requires { count ≤ length stack.now }
    ensures value { result ≡ count }
    ensures few { result ≤ most }
{
    count.min(stack.left() as usize) as u32
}

/// The goals that were made, in place of the first one.
fn put<L: Ledger>(
    state: &PlayState,
    command: &Command,
    made: GoalList,
    steps: &mut Steps<L>,
) -> Result<PlayState, Halt>
    requires made { state.now.made < 2 ^ 31 }
    ensures exact { Gives (λ s. s) result (stepping.put command.now state.now made) }
    ensures few { IfOk result (λ next. AllHaveFew state.now.stack → AllHaveFew next.stack) }
{
    if !all_have_few(made.as_slice()) {
        return Err(Halt::Memory);
    }
    let count = made.len();
    match state.stack.push_shared(made, steps) {
        Ok(stack) => {
            let count = few_of(&stack, count);
            let numbers = state.numbers.with_made(state.made, count)?;
            let blocks = state.blocks.share()?;
            Ok(PlayState {
                stack,
                made: state.made + count,
                numbers,
                blocks,
            })
        }
        Err(stop) => Err(halt_of(command, state.numbers.first(), stop)),
    }
}

/// One command, with a counter of steps of its own.
fn advance_from<L: Ledger>(
    alloc: Global,
    basis: Basis<'_>,
    state: &PlayState,
    command: &Command,
    blank: Blank,
) -> Result<PlayState, Halt>
    requires name { blank.name ≡ L.name }
    requires parts { blank.parts ≡ L.parts }
    requires some { 0 < blank.parts }
    requires command { IsCommand command.now }
    requires goals { stepping.FirstIsWellFormed basis.defs.now basis.specs.now state.now.stack }
    requires made { state.now.made < 2 ^ 31 }
    requires meet { ArgumentsMeet basis.defs.now basis.specs.now }
    ensures exact { IsAnswer (stepping.Advances command.now state.now basis.entry.defs.now basis.entry.specs.now) result }
    ensures few { IfOk result (λ next. AllHaveFew state.now.stack → AllHaveFew next.stack) }
{
    let Some(goal) = state.stack.first() else {
        return Err(halt_of(command, 0, RuleStop::No(no_goal())));
    };
    let mut steps = Steps::<L>::new(blank);
    let made = made_by(alloc, basis, state, goal, command, &mut steps)?;
    put(state, command, made, &mut steps)
}

/// The state behind a command: its arguments are read in the context of the first goal, and the goals that its row makes
/// take that goal's place. The state itself stays as it is, and shares its goals and numbers with the new one.
///
/// 611 where no goal is left, with goal 0; a refusal of reading at its token, with goal 0; the row's refusal, and 801
/// beyond the limit on all goals that are left, at the command with the number of the first goal.
///
/// No goal that a command makes has more than 2^32 variables, or as many existentials in an assertion: these find no room in
/// memory.
///
/// The command is one of a script that was read. The first goal is well formed over `defs` and `specs`, over which
/// what was read is such as the calls of commands ask for.
pub fn advance(
    alloc: Global,
    state: &PlayState,
    command: &Command,
    defs: &Defs,
    specs: &SpecTable,
) -> Result<PlayState, Halt>
    requires command { IsCommand command.now }
    requires goals { stepping.FirstIsWellFormed defs.now specs.now state.now.stack }
    requires made { state.now.made < 2 ^ 31 }
    requires meet { ArgumentsMeet defs.now specs.now }
    ensures exact { IsAnswer (stepping.Advances command.now state.now defs.now specs.now) result }
    ensures few { IfOk result (λ next. AllHaveFew state.now.stack → AllHaveFew next.stack) }
{
    advance_from::<Brand>(alloc, Basis { defs, specs }, state, command, Blank::new(1))
}
