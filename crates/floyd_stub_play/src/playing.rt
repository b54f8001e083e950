ghost use Rattle.std.specs.Prelude.{◌≡◌, ℕ, ◌+◌, ◌≤◌, ◌<◌, ◌^◌, length, OnOk, IfOk};
ghost use Rattle.floyd_text.specs.Gives.{Gives, RuleGives};
ghost use Rattle.floyd_stub_goal.specs.GoalHolds.{HoldsFor};
ghost use Rattle.floyd_stub_play.specs.Rows.{row};
ghost use Rattle.floyd_stub_play.specs.Derivation.{after, played, no_goal as no_goal_lem};
ghost use Rattle.floyd_stub_play.specs.PlayClauses.{halt_of as halt_of_lem};

use floyd_stub_entail::do_cancel;
use floyd_stub_forward::do_forward;
use floyd_stub_goal::{Command, Goal, GoalList, GoalStack, Proof, wrong_goal};
use floyd_text::{Code, Halt, No, Refusal, Rule, RuleStop, Shown};
use std::alloc::Global;
use std::mem;

/// Plays a proof on its start: its commands in order, each in place of the first goal that is left, and then its
/// `QED`. Where it plays through, the start holds. The proof is one of a script that was read, which has no more than
/// 1000000 tokens.
pub fn play(alloc: Global, proof: &Proof, start: Goal) -> Result<(), Halt>
    requires few { length proof.now.commands ≤ 1000000 }
    ensures exact { Gives (λ done. done) result (played proof.now start) }
    ensures holds { OnOk result ((n : ℕ) → HoldsFor n start) }
{
    let mut goals = GoalStack::new(alloc, start)?;
    'commands: for command in proof.commands.as_slice() {
        play_command(alloc, command, &mut goals)?;
    }
    match goals.left() {
        0 => Ok(()),
        left => Err(Halt::Refused(Refusal::at(
            Code::OpenGoals,
            proof.end,
            Shown::Count(left as u64),
        ))),
    }
}

/// Puts what the command makes in the place of the first goal.
fn play_command(alloc: Global, command: &Command, goals: &mut GoalStack) -> Result<(), Halt>
    requires few { goals.old.next + 2 < 2 ^ 32 }
    ensures exact { Gives (λ done. goals.new) result (after command.now goals.old) }
    ensures next { OnOk result (goals.new.next ≤ goals.old.next + 2) }
{
    let Some(first) = goals.take() else {
        return Err(Halt::Refused(no_goal().of(command.rule, command.place, 0)));
    };
    let number = first.number;
    match do_row(alloc, command.rule, first.into_goal()) {
        Ok(made) => Ok(goals.put(alloc, made)?),
        Err(stop) => Err(halt_of(command, number, stop)),
    }
}

/// The goals that the row of the command makes.
fn do_row(alloc: Global, rule: Rule, goal: Goal) -> Result<GoalList, RuleStop>
    ensures exact { RuleGives (λ goals. goals) result (row rule goal) }
    ensures few { IfOk result (λ goals. length goals ≤ 2) }
{
    match rule {
        Rule::Forward => do_forward(alloc, goal),
        Rule::Cancel => do_cancel(alloc, goal),
        _ => Err(RuleStop::No(wrong_goal())),
    }
}

/// The refusal of a command that meets no goal.
fn no_goal() -> No
    ensures { result ≡ no_goal_lem }
{
    No {
        code: Code::NoGoal,
        shown: Shown::Nothing,
    }
}

/// The refusal of a rule, at its command and goal.
fn halt_of(command: &Command, number: u32, mut stop: RuleStop) -> Halt
    ensures { result ≡ halt_of_lem command.now number stop }
{
    match &mut stop {
        RuleStop::No(no) => {
            let no = mem::replace(no, no_goal());
            Halt::Refused(no.of(command.rule, command.place, number))
        }
        RuleStop::Memory => Halt::Memory,
    }
}
