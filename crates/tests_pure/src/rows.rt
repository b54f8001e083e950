//! Rows of the tables: what a command makes of a goal, once or often.
ghost use Rattle.std.specs.Prelude.{◌≡◌, ◌<◌, IfOk};
ghost use Rattle.tests_pure.specs.Scoped.{IsFound};

use crate::answers::{are_goals, is_refusal};
use crate::arguments::args_of;
use crate::commands::{Trial, answer_of};
use crate::goals::goal_of;
use crate::scoped::found_of;
use floyd_text::{RuleStop, Steps};
use std::alloc::Global;
use std::sync::ledger::{Blank, Ledger};
use tests_terms::{Stop, Tree, part};

/// `GOAL .. (ARGUMENT ..)`, where a word stands between them.
fn trial_of<L: Ledger>(alloc: Global, row: &[Tree], steps: &mut Steps<L>) -> Result<Trial, Stop>
    ensures { IfOk result (λ t. IsFound t.goal t.found) }
{
    let goal = goal_of(alloc, part(row, 0)?, steps)?;
    let args = args_of(alloc, part(row, 2)?.parts(), steps)?;
    let found = found_of(alloc, &goal)?;
    Ok(Trial { goal, found, args })
}

/// Whether the command gives the goals, or the refusal, of the answer.
fn answers<L: Ledger>(
    alloc: Global,
    word: &str,
    trial: &Trial,
    answer: &[Tree],
    steps: &mut Steps<L>,
) -> Result<bool, Stop>
    requires { IsFound trial.now.goal trial.now.found }
{
    match &answer_of(alloc, word, trial, steps)? {
        Ok(goals) => are_goals(alloc, goals, answer, steps),
        Err(RuleStop::No(no)) => is_refusal(no, answer),
        Err(RuleStop::Memory) => Err(Stop::Memory),
    }
}

/// Whether the command gives goals each of so many times. None is kept.
fn gives_often<L: Ledger>(
    alloc: Global,
    word: &str,
    trial: &Trial,
    count: u32,
    steps: &mut Steps<L>,
) -> Result<bool, Stop>
    requires { IsFound trial.now.goal trial.now.found }
{
    'tries: for _ in 0..count {
        match &answer_of(alloc, word, trial, steps)? {
            Ok(_) => {}
            Err(_) => return Ok(false),
        }
    }
    Ok(true)
}

/// Whether a row answers as it says. A row is `GOAL COMMAND (ARGUMENT ..) GOAL ..`; in place of the goals behind the command
/// stands `closed` where there are none, or the code of a refusal with what it shows, or `often COUNT` where the command
/// gives goals so many times, each time from the first goal.
pub fn agrees<L: Ledger>(alloc: Global, row: &[Tree], blank: Blank) -> Result<bool, Stop>
    requires name { blank.name ≡ L.name }
    requires parts { blank.parts ≡ L.parts }
    requires some { 0 < blank.parts }
{
    let mut steps = Steps::<L>::new(blank);
    let trial = trial_of(alloc, row, &mut steps)?;
    let word = part(row, 1)?.word();
    let answer = row.get(3..).unwrap_or(&[]);
    if part(answer, 0)?.word() == "often" {
        return gives_often(alloc, word, &trial, part(answer, 1)?.count()?, &mut steps);
    }
    answers(alloc, word, &trial, answer, &mut steps)
}
