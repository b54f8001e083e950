ghost use Rattle.std.specs.Prelude.{◌≡◌, ◌+◌, ◌^◌, ◌<◌, length, reverse, IfOk};
ghost use Rattle.floyd_stub_goal.specs.Starts.{numbered};

use crate::goal::{Goal, GoalList};
use std::alloc::{AllocError, Global};
use std::marker::Model;

/// A goal and its number in the order in which the goals of a proof are made, from 1.
pub struct Numbered {
    pub number: u32,
    pub goal: Goal,
}

impl Numbered {
    pub fn into_goal(self) -> Goal
        ensures { result ≡ self.goal }
    {
        let Numbered { number: _, goal } = self;
        goal
    }
}

impl Drop for Numbered {
    fn drop(self) {
        let Numbered { number: _, goal } = self;
        drop(goal);
    }
}

/// The goals of a proof that are left, the first one last, and the number of the next goal that is made.
pub struct GoalStack {
    goals: Vec<Numbered>,
    next: u32,
}

impl Drop for GoalStack {
    fn drop(self) {
        let GoalStack { goals, next: _ } = self;
        drop(goals);
    }
}

impl Model for GoalStack {
    ghost use Rattle.std.specs.Prelude.{reverse};
    ghost use Rattle.floyd_stub_goal.specs.Starts.{Play};
    ghost use Rattle.floyd_stub_goal.specs.contracts.stack.Numbered as n;
    ghost use Rattle.std.specs.Coded.{codes};

    ghost Value = { Play };

    ghost coded = { Prim.hlevel (codes, n.the_row.coded) };

    ghost view = { λ s. record { next = s.next; left = reverse s.goals.items } };
}

impl GoalStack {
    ghost use Rattle.std.specs.Prelude.{◌≡◌, ◌+◌, ◌^◌, ◌<◌, [], ◌∷◌, ◌++◌, length, IfOk, OnOk, OnErr, MatchOption};
    ghost use Rattle.floyd_stub_goal.specs.Starts.{play_start, numbered};

    /// The start of a proof.
    pub fn new(alloc: Global, start: Goal) -> Result<GoalStack, AllocError>
        ensures { IfOk result (λ s. s ≡ play_start start) }
    {
        let mut goals = Vec::new(alloc);
        goals.push(Numbered {
            number: 1,
            goal: start,
        })?;
        Ok(GoalStack { goals, next: 2 })
    }

    /// How many goals are left.
    pub fn left(&self) -> usize
        ensures { result ≡ length self.now.left }
    {
        self.goals.len()
    }

    /// Takes the first goal out.
    pub fn take(&mut self) -> Option<Numbered>
        ensures goal { MatchOption result ((self.old.left ≡ []) × (self.new.left ≡ [])) (λ g. self.old.left ≡ g ∷ self.new.left) }
        ensures next { self.new.next ≡ self.old.next }
    {
        self.goals.pop()
    }

    /// Puts goals before those that are left.
    pub fn put(&mut self, alloc: Global, made: GoalList) -> Result<(), AllocError>
        requires { self.old.next + length made < 2 ^ 32 }
        ensures ok { OnOk result (self.new ≡ record { next = self.old.next + length made; left = numbered self.old.next made ++ self.old.left }) }
        ensures err { OnErr result (self.new ≡ self.old) }
    {
        let next = self.next + made.len() as u32;
        let mut goals = last_first(alloc, self.next, made)?;
        self.goals.append(&mut goals)?;
        self.next = next;
        Ok(())
    }
}

/// The goals with their numbers from `first` on, the last one first.
fn last_first(alloc: Global, first: u32, made: GoalList) -> Result<Vec<Numbered>, AllocError>
    requires { first + length made < 2 ^ 32 }
    ensures { IfOk result (λ goals. reverse goals.items ≡ numbered first made) }
{
    let mut made = made;
    let mut goals = Vec::new(alloc);
    'made: while let Some(goal) = made.pop() {
        let number = first + made.len() as u32;
        goals.push(Numbered { number, goal })?;
    }
    Ok(goals)
}
