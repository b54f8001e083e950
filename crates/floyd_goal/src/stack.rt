ghost use Rattle.std.specs.Prelude.{◌≡◌, ◌+◌, ◌≤◌, ◌<◌, ◌∷◌, ◌++◌, [], drop, length, slice_get, None, IfOk, IfSome, OnOk, OnErr};
ghost use Rattle.std.specs.Option.{option_copied};
ghost use Rattle.floyd_assert_trees.specs.Sizes.{sum_of};
ghost use Rattle.floyd_goal_trees.specs.Sizes.{goal_size as goal_size_lem};
ghost use Rattle.floyd_goal.specs.Stacks.{GivesPush, fitting, most, pushed, too_many as too_many_lem};
ghost use Rattle.floyd_text.specs.declared.refusal.RuleStop.TheVariants as stops;
ghost use Rattle.floyd_text.specs.Gives.{RuleGives};

use floyd_goal_trees::{Goal, GoalList, goal_size};
use floyd_text::{Code, No, RuleStop, Shown, Steps};
use std::alloc::{AllocError, Global};
use std::marker::Model;
use std::rc::Rc;
use std::sync::ledger::Ledger;

/// The greatest size of all goals that are left of a proof.
pub const MAX_GOALS: u32 = 4_194_304;

/// The goals that are left of a proof, the first one first: a list whose nodes are shared, so that what a push leaves
/// stands beside what was there before.
#[cycle(stack)]
pub struct GoalStack {
    alloc: Global,
    top: Option<Rc<GoalNode>>,
}

/// A goal, those behind it, their number and the sum of their sizes.
#[cycle(stack)]
struct GoalNode {
    goal: Goal,
    below: GoalStack,
    count: u32,
    size: u32,
}

impl Model for GoalStack {
    ghost use Rattle.std.specs.Prelude.{List};
    ghost use Rattle.floyd_goal_trees.specs.declared.goal.Goal.{Goal};

    ghost Value = { List Goal };

    ghost use Rattle.std.specs.Prelude.{length};
    ghost use Rattle.std.specs.Coded.{coded_list};
    ghost use Rattle.floyd_goal_trees.specs.contracts.goal.Goal as g;

    ghost coded = { coded_list g.the_row.coded };

    ghost use Rattle.floyd_goal.specs.StackClauses.{IsStack, goals_in};
    ghost use Rattle.std.proofs.Common.{arith};

    ghost view = { λ s. goals_in s.top };

    ghost invariant = { λ s. IsStack s.top };

    ghost size = { length };

    ghost size_decreases = { λ s h. Prim.grind (arith) };
}

impl GoalNode {
    /// Lets the goal go, and keeps what stands behind it.
    fn into_below(self) -> GoalStack
        ensures { result ≡ self.below }
    {
        let GoalNode {
            goal,
            below,
            count: _,
            size: _,
        } = self;
        drop(goal);
        below
    }
}

impl Drop for GoalNode {
    fn drop(self) {
        let GoalNode {
            goal,
            below,
            count: _,
            size: _,
        } = self;
        drop(goal);
        drop(below);
    }
}

/// A loop, since a stack may have more nodes than calls have room.
impl Drop for GoalStack {
    fn drop(mut self) {
        'nodes: loop {
            match self {
                GoalStack {
                    alloc: _,
                    top: None,
                } => return,
                GoalStack {
                    alloc: _,
                    top: Some(node),
                } => match Rc::into_inner(node) {
                    None => return,
                    Some(node) => self = node.into_below(),
                },
            }
        }
    }
}

impl GoalStack {
    pub fn new(alloc: Global) -> GoalStack
        ensures { result ≡ [] }
    {
        GoalStack { alloc, top: None }
    }

    /// The first goal.
    pub fn first(&self) -> Option<&Goal>
        ensures { option_copied result ≡ slice_get self.now 0 }
    {
        match &self.top {
            None => None,
            Some(node) => Some(&node.goal),
        }
    }

    /// The number of goals.
    pub fn left(&self) -> u32
        ensures value { result ≡ length self.now }
        ensures limit { result ≤ most }
    {
        match &self.top {
            None => 0,
            Some(node) => node.count,
        }
    }

    /// The sum of the sizes of the goals.
    fn size(&self) -> u32
        ensures value { result ≡ sum_of goal_size_lem self.now }
        ensures limit { result ≤ most }
    {
        match &self.top {
            None => 0,
            Some(node) => node.size,
        }
    }

    /// The size with one more goal, where it is within the limit.
    fn size_with(&self, goal: &Goal) -> Option<u32>
        ensures within { IfSome result (λ n. n ≡ sum_of goal_size_lem (goal.now ∷ self.now)) }
        ensures limit { IfSome result (λ n. n ≤ most) }
        ensures beyond { result ≡ None → most < sum_of goal_size_lem (goal.now ∷ self.now) }
    {
        let size = goal_size(goal);
        let room = MAX_GOALS - self.size();
        if size > u64::from(room) {
            return None;
        }
        Some(self.size() + size as u32)
    }

    /// Another owner of the same goals.
    pub fn share(&self) -> Result<GoalStack, AllocError>
        ensures value { IfOk result (λ s. s ≡ self.now) }
        ensures small { sum_of goal_size_lem self.now ≤ most }
    {
        let top = match &self.top {
            None => None,
            Some(node) => Some(node.clone()?),
        };
        Ok(GoalStack {
            alloc: self.alloc,
            top,
        })
    }

    /// The goals behind the first one.
    fn behind(&self) -> Result<GoalStack, AllocError>
        ensures value { IfOk result (λ s. s ≡ drop 1 self.now) }
        ensures small { sum_of goal_size_lem (drop 1 self.now) ≤ most }
    {
        match &self.top {
            None => Ok(GoalStack::new(self.alloc)),
            Some(node) => node.below.share(),
        }
    }

    /// The goal before these goals.
    #[tactic(auto, using(crate::proofs::StackLemmas::as_many, crate::proofs::StackLemmas::is_fitting, crate::proofs::StackLemmas::is_not))]
    fn under(self, goal: Goal) -> Result<GoalStack, RuleStop>
        ensures { RuleGives (λ s. s) result (fitting (goal ∷ self)) }
    {
        let Some(size) = self.size_with(&goal) else {
            return Err(too_many());
        };
        let alloc = self.alloc;
        let count = self.left() + 1;
        let node = GoalNode {
            goal,
            below: self,
            count,
            size,
        };
        Ok(GoalStack {
            alloc,
            top: Some(Rc::new(alloc, node)?),
        })
    }

    /// The goals that were made, before these.
    fn under_all(self, made: GoalList) -> Result<GoalStack, RuleStop>
        requires { sum_of goal_size_lem self ≤ most }
        ensures { RuleGives (λ s. s) result (fitting (made ++ self)) }
    {
        let mut made = made;
        let mut stack = self;
        'made: while let Some(goal) = made.pop() {
            match stack.under(goal) {
                Ok(next) => stack = next,
                Err(stop) => return Err(stop),
            }
        }
        Ok(stack)
    }

    /// The goals that were made, in place of the first one. The stack itself stays as it is.
    pub fn push_shared<L: Ledger>(
        &self,
        made: GoalList,
        steps: &mut Steps<L>,
    ) -> Result<GoalStack, RuleStop>
        ensures exact { RuleGives (λ s. s) result (pushed made self.now) }
        ensures ticks { OnOk result (steps.new ≡ steps.old + length made) }
    {
        let count = made.len();
        let next = self.behind()?.under_all(made)?;
        count_all(count, steps);
        Ok(next)
    }

    /// Puts the goals that were made in place of the first one.
    pub fn push(&mut self, made: GoalList) -> Result<(), RuleStop>
        ensures exact { GivesPush result self.new (pushed made self.old) }
        ensures err { OnErr result (self.new ≡ self.old) }
    {
        let next = self.behind()?.under_all(made)?;
        *self = next;
        Ok(())
    }
}

fn count_all<L: Ledger>(count: usize, steps: &mut Steps<L>)
    ensures { steps.new ≡ steps.old + count }
{
    'goals: for _goal in 0..count {
        steps.tick();
    }
}

/// The refusal of goals that are beyond the limit.
fn too_many() -> RuleStop
    ensures { result ≡ stops.No too_many_lem }
{
    RuleStop::No(No {
        code: Code::GoalsTooLarge,
        shown: Shown::Nothing,
    })
}
