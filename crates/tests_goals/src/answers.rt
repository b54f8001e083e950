//! Whether goals and refusals are those of a row.
use crate::goals::goal_of;
use crate::same::same_goal;
use floyd_goal::GoalList;
use floyd_text::{No, Shown, Steps};
use std::alloc::Global;
use std::sync::ledger::Ledger;
use tests_terms::{Stop, Tree, part};

/// Whether the goals are these, each as `goal_of` reads it, or none where there stands `closed`.
pub fn are_goals<L: Ledger>(
    alloc: Global,
    goals: &GoalList,
    answer: &[Tree],
    steps: &mut Steps<L>,
) -> Result<bool, Stop> {
    let goals = goals.as_slice();
    if part(answer, 0)?.word() == "closed" {
        return Ok(goals.is_empty());
    }
    if goals.len() != answer.len() {
        return Ok(false);
    }
    'goals: for (goal, tree) in goals.iter().zip(answer) {
        if !same_goal(goal, &goal_of(alloc, tree, steps)?)? {
            return Ok(false);
        }
    }
    Ok(true)
}

/// Whether the refusal is `CODE`, or `CODE SHOWN` with the number of a hypothesis, a count or a name.
pub fn is_refusal(no: &No, answer: &[Tree]) -> Result<bool, Stop> {
    let first = part(answer, 0)?;
    if !first.parts().is_empty() || u32::from(no.code.number()) != first.count()? {
        return Ok(false);
    }
    match &no.shown {
        Shown::Nothing => Ok(answer.len() == 1),
        Shown::Count(n) => Ok(u64::from(part(answer, 1)?.count()?) == *n),
        Shown::Name(name) => Ok(part(answer, 1)?.name()? == *name),
        Shown::Part(n) => Ok(part(answer, 1)?.count()? == *n),
        Shown::Hypothesis(n) => Ok(part(answer, 1)?.count()? == *n),
    }
}
