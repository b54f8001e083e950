//! Proofs played.
ghost use Rattle.std.specs.Prelude.{◌≡◌, ◌≤◌, length, IfOk};
ghost use Rattle.std.specs.List.{AllByRecursion};
ghost use Rattle.floyd_play.specs.Proving.{IsDone, claim_of};
ghost use Rattle.floyd_play_laws.specs.Laws.{AreLawful};
ghost use Rattle.floyd_play_reading.specs.Answers.{IsAnswer};
ghost use Rattle.floyd_play_steps.specs.Forms.{AreWellFormed, ArgumentsMeet, IsCommand};
ghost use Rattle.floyd_play_steps.specs.Plays.{IsShown};
ghost use Rattle.floyd_proved.specs.Claims.{IsProved};

use crate::naming::names_of;
use floyd_assert_trees::{Defs, SpecTable};
use floyd_goal_trees::GoalList;
use floyd_play_steps::{Shot, Start, play as play_commands, play_to as show_behind, share_goals};
use floyd_proved::{Proved, proved};
use floyd_script_trees::Proof;
use floyd_text::{Halt, Shared};
use std::alloc::{AllocError, Global};

/// What the proof claims of its start goals, which hold.
fn claimed(
    alloc: Global,
    proof: &Proof,
    goals: GoalList,
    defs: &Shared<Defs>,
    specs: &Shared<SpecTable>,
) -> Result<Proved, AllocError>
    requires holds { IsProved (claim_of defs.now specs.now proof.now goals) }
    ensures { IfOk result (λ p. p ≡ claim_of defs.now specs.now proof.now goals) }
{
    let name = proof.name.share()?;
    let before = names_of(alloc, &defs.get().proved)?;
    let defs = defs.share()?;
    let specs = specs.share()?;
    Ok(proved(name, proof.place.file, goals, before, defs, specs))
}

/// Plays a proof on its start: its commands in order, up to the first refusal, and then its QED. What plays through is
/// proved: each start goal holds for every number of steps, where the lemmas that are proved in `defs` are true.
///
/// A start beyond the limit on goals is 801 at the proof's name; 611 at a command that meets no goal, with goal 0; a refusal
/// of reading at its token, with goal 0; the row's refusal, and 801 beyond the limit on all goals that are left, at the command
/// with the number of the first goal; 610 at QED where goals are left, with their count.
///
/// The proof is one of a script that was read. The start goals are well formed over `defs` and `specs`, over which what was
/// read is such as the calls of commands ask for, and each command keeps goals well formed and has a sound row.
pub fn play(
    alloc: Global,
    proof: &Proof,
    start: Start,
    defs: &Shared<Defs>,
    specs: &Shared<SpecTable>,
) -> Result<Proved, Halt>
    requires few { length proof.now.commands ≤ 1000000 }
    requires script { AllByRecursion IsCommand proof.now.commands }
    requires goals { AreWellFormed defs.now specs.now start.goals }
    requires meet { ArgumentsMeet defs.now specs.now }
    requires lawful { AreLawful defs.now specs.now }
    ensures exact { IsAnswer (IsDone defs.now specs.now proof.now start) result }
{
    let goals = share_goals(alloc, start.goals.as_slice())?;
    play_commands(alloc, proof, start, defs.get(), specs.get())?;
    let claim = claimed(alloc, proof, goals, defs, specs)?;
    Ok(claim)
}

/// What is shown behind so many commands of a proof, or the first refusal on the way, as `play` has it.
///
/// The proof has at least so many commands; else as `play`.
pub fn play_to(
    alloc: Global,
    proof: &Proof,
    start: Start,
    defs: &Defs,
    specs: &SpecTable,
    commands: u32,
) -> Result<Shot, Halt>
    requires some { commands ≤ length proof.now.commands }
    requires few { length proof.now.commands ≤ 1000000 }
    requires script { AllByRecursion IsCommand proof.now.commands }
    requires goals { AreWellFormed defs.now specs.now start.goals }
    requires meet { ArgumentsMeet defs.now specs.now }
    requires lawful { AreLawful defs.now specs.now }
    ensures exact { IsAnswer (IsShown defs.now specs.now proof.now start commands) result }
{
    show_behind(alloc, proof, start, defs, specs, commands)
}
