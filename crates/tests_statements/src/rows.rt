//! Rows of the tables: what a command makes of a goal.
ghost use Rattle.std.specs.Prelude.{◌≡◌, ◌<◌};

use crate::commands::answer_of;
use floyd_assert::Defs;
use floyd_text::{RuleStop, Steps};
use std::alloc::Global;
use std::sync::ledger::{Blank, Ledger};
use tests_goals::{are_goals, args_of, goal_of, is_refusal};
use tests_terms::{Stop, Tree, part};

/// Whether a row answers as it says. A row is `GOAL COMMAND (ARGUMENT ..) GOAL ..`; in place of the goals behind the command
/// stands `closed` where there are none, or the code of a refusal with what it shows.
pub fn agrees<L: Ledger>(
    alloc: Global,
    defs: &Defs,
    row: &[Tree],
    blank: Blank,
) -> Result<bool, Stop>
    requires name { blank.name ≡ L.name }
    requires parts { blank.parts ≡ L.parts }
    requires some { 0 < blank.parts }
{
    let mut steps = Steps::<L>::new(blank);
    let goal = goal_of(alloc, part(row, 0)?, &mut steps)?;
    let args = args_of(alloc, part(row, 2)?.parts(), &mut steps)?;
    let answer = row.get(3..).unwrap_or(&[]);
    match &answer_of(alloc, part(row, 1)?.word(), &goal, &args, defs, &mut steps)? {
        Ok(goals) => are_goals(alloc, goals, answer, &mut steps),
        Err(RuleStop::No(no)) => is_refusal(no, answer),
        Err(RuleStop::Memory) => Err(Stop::Memory),
    }
}
