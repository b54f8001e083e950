ghost use Rattle.std.specs.Prelude.{◌≡◌};
ghost use Rattle.floyd_text.specs.Refusals.{refusal_at, refusal_in};

use crate::code::Code;
use crate::name::Name;
use crate::place::Place;
use crate::rule::Rule;
use std::alloc::{AllocError, AllocFailed};

/// What a refusal shows besides its code and place.
#[derive(Debug)]
pub enum Shown {
    Nothing,
    Count(u64),
    Name(Name),
    /// The number of a part of the memory of a goal, from 1.
    Part(u32),
    /// The number of a hypothesis of a goal, from 1; 0 is the negated goal.
    Hypothesis(u32),
}

impl Drop for Shown {
    fn drop(self) {
        match self {
            Shown::Nothing => {}
            Shown::Count(_) => {}
            Shown::Name(name) => drop(name),
            Shown::Part(_) => {}
            Shown::Hypothesis(_) => {}
        }
    }
}

/// A refusal: its code, the rule that was tried, its place, the number of the goal it was met at (0 for none), and what
/// it shows.
#[derive(Debug)]
pub struct Refusal {
    pub code: Code,
    pub rule: Rule,
    pub place: Place,
    pub goal: u32,
    pub shown: Shown,
}

impl Refusal {
    /// The refusal of a file that is read, or of files that are joined.
    pub fn at(code: Code, place: Place, shown: Shown) -> Refusal
        ensures { result ≡ refusal_at code place shown }
    {
        Refusal {
            code,
            rule: Rule::Reading,
            place,
            goal: 0,
            shown,
        }
    }
}

impl Drop for Refusal {
    fn drop(self) {
        let Refusal {
            code: _,
            rule: _,
            place: _,
            goal: _,
            shown,
        } = self;
        drop(shown);
    }
}

/// A refusal, or want of memory, which no clause ties to anything.
#[derive(Debug)]
pub enum Halt {
    Refused(Refusal),
    Memory,
}

impl Drop for Halt {
    fn drop(self) {
        match self {
            Halt::Refused(refusal) => drop(refusal),
            Halt::Memory => {}
        }
    }
}

/// A refusal of a rule, which does not know its own place.
#[derive(Debug)]
pub struct No {
    pub code: Code,
    pub shown: Shown,
}

impl No {
    /// The same of this command, at its place, and at the goal of this number.
    pub fn of(self, rule: Rule, place: Place, goal: u32) -> Refusal
        ensures { result ≡ refusal_in rule place goal self }
    {
        let No { code, shown } = self;
        Refusal {
            code,
            rule,
            place,
            goal,
            shown,
        }
    }
}

impl Drop for No {
    fn drop(self) {
        let No { code: _, shown } = self;
        drop(shown);
    }
}

/// A refusal of a rule, or want of memory.
#[derive(Debug)]
pub enum RuleStop {
    No(No),
    Memory,
}

impl Drop for RuleStop {
    fn drop(self) {
        match self {
            RuleStop::No(no) => drop(no),
            RuleStop::Memory => {}
        }
    }
}

impl From<AllocError> for Halt {
    ghost use Rattle.floyd_text.specs.declared.refusal.Halt.TheVariants.{Memory};

    ghost from_gives = { λ _ e. e ≡ Memory };

    fn from(_error: AllocError) -> Halt {
        Halt::Memory
    }
}

impl<T: Drop> From<AllocFailed<T>> for Halt {
    ghost use Rattle.floyd_text.specs.declared.refusal.Halt.TheVariants.{Memory};

    ghost from_gives = { λ _ e. e ≡ Memory };

    fn from(_error: AllocFailed<T>) -> Halt {
        Halt::Memory
    }
}

impl From<AllocError> for RuleStop {
    ghost use Rattle.floyd_text.specs.declared.refusal.RuleStop.TheVariants.{Memory};

    ghost from_gives = { λ _ e. e ≡ Memory };

    fn from(_error: AllocError) -> RuleStop {
        RuleStop::Memory
    }
}

impl<T: Drop> From<AllocFailed<T>> for RuleStop {
    ghost use Rattle.floyd_text.specs.declared.refusal.RuleStop.TheVariants.{Memory};

    ghost from_gives = { λ _ e. e ≡ Memory };

    fn from(_error: AllocFailed<T>) -> RuleStop {
        RuleStop::Memory
    }
}
