//! The text of a row's goal.
ghost use Rattle.std.specs.Prelude.{◌≡◌, ◌<◌};

use crate::statements::statements_of;
use floyd_goal_trees::{Goal, Rest, Run};
use floyd_show::goal_text;
use floyd_text::{Bytes, Shared, Steps};
use std::alloc::Global;
use std::sync::ledger::{Blank, Ledger};
use tests_goals::goal_of;
use tests_terms::{Stop, Tree, part};

/// The same goal before these statements.
fn before(alloc: Global, goal: &Goal, trees: &[Tree]) -> Result<Goal, Stop> {
    match goal {
        Goal::Run(run) => {
            let context = run.context.after_command(alloc)?;
            let source = run.source.share()?;
            let rest = Rest::new(Shared::new(alloc, statements_of(alloc, trees)?)?);
            let exits = run.exits.share()?;
            Ok(Goal::Run(Run {
                context,
                source,
                rest,
                exits,
            }))
        }
        _ => Err(Stop::Unreadable),
    }
}

/// The text of what a row shows. A row is `none`, or `NUMBER LEFT GOAL`, with the statements behind it that are left.
pub fn text_of<L: Ledger>(alloc: Global, row: &[Tree], blank: Blank) -> Result<Bytes, Stop>
    requires name { blank.name ≡ L.name }
    requires parts { blank.parts ≡ L.parts }
    requires some { 0 < blank.parts }
{
    if part(row, 0)?.word() == "none" {
        return Ok(goal_text(alloc, None, 0, 0)?);
    }
    let mut steps = Steps::<L>::new(blank);
    let number = part(row, 0)?.count()?;
    let left = part(row, 1)?.count()?;
    let goal = goal_of(alloc, part(row, 2)?, &mut steps)?;
    match row.get(3..) {
        Some(trees) if !trees.is_empty() => {
            let goal = before(alloc, &goal, trees)?;
            Ok(goal_text(alloc, Some(&goal), number, left)?)
        }
        _ => Ok(goal_text(alloc, Some(&goal), number, left)?),
    }
}
