ghost use Rattle.std.specs.Prelude.{◌≡◌, ◌<◌};
ghost use Rattle.floyd_goal.specs.Answers.{IsAnswer};
ghost use Rattle.floyd_goal.specs.Sides.{Side, context_of as context_of_lem};

use floyd_goal_formulas::{conjunction, kept};
use floyd_goal_trees::{Context, Goal, Pure};
use floyd_text::{RuleStop, Steps};
use floyd_tree::{Formula, FormulaList};
use std::alloc::Global;
use std::marker::Brand;
use std::sync::ledger::{Blank, Ledger};

/// The side formulas that need a proof, in order, and the goal that they are true, if there are some.
pub struct Sides {
    pub kept: FormulaList,
    pub goal: Option<Pure>,
}

impl Sides {
    /// The formulas, and the goal.
    pub fn into_parts(self) -> (FormulaList, Option<Pure>)
        ensures { result ≡ (self.kept, self.goal) }
    {
        let Sides { kept, goal } = self;
        (kept, goal)
    }
}

impl Drop for Sides {
    fn drop(self) {
        let Sides { kept, goal } = self;
        drop(kept);
        drop(goal);
    }
}

/// What a goal may use.
pub fn context_of(goal: &Goal) -> &Context
    ensures { result.now ≡ context_of_lem goal.now }
{
    match goal {
        Goal::Run(run) => &run.context,
        Goal::Entail(entail) => &entail.context,
        Goal::Pure(pure) => &pure.context,
    }
}

/// The goal of the side formulas, where they are judged in this context.
pub fn side_in<L: Ledger>(
    alloc: Global,
    context: &Context,
    formulas: &[Formula],
    steps: &mut Steps<L>,
) -> Result<Sides, RuleStop>
    ensures exact { IsAnswer (Side context.now formulas.now) result }
{
    let kept = kept(alloc, context.hypotheses.get().as_slice(), formulas)?;
    let goal = match conjunction(alloc, kept.as_slice(), steps) {
        Err(stop) => return Err(stop),
        Ok(None) => None,
        Ok(Some(target)) => {
            let context = context.after_command(alloc)?;
            Some(Pure { context, target })
        }
    };
    Ok(Sides { kept, goal })
}

/// The same with a counter of its own.
fn side_from<L: Ledger>(
    alloc: Global,
    context: &Context,
    formulas: &[Formula],
    blank: Blank,
) -> Result<Sides, RuleStop>
    requires name { blank.name ≡ L.name }
    requires parts { blank.parts ≡ L.parts }
    requires some { 0 < blank.parts }
    ensures exact { IsAnswer (Side context.now formulas.now) result }
{
    let mut steps = Steps::<L>::new(blank);
    side_in(alloc, context, formulas, &mut steps)
}

/// The goal of the formulas that a goal's hypotheses do not give and that are not true at once, if there are some.
pub fn side(alloc: Global, goal: &Goal, formulas: &FormulaList) -> Result<Sides, RuleStop>
    ensures exact { IsAnswer (Side (context_of_lem goal.now) formulas.now) result }
{
    side_from::<Brand>(alloc, context_of(goal), formulas.as_slice(), Blank::new(1))
}
