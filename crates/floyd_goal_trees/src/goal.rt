use crate::context::Context;
use crate::exits::Exits;
use crate::rest::Rest;
use floyd_assert_trees::Assertion;
use floyd_text::Shared;
use floyd_tree::Formula;
use sqlite_items::Items;

/// Where the source holds the statements run, and are left by an exit only where that holds.
pub struct Run {
    pub context: Context,
    pub source: Shared<Assertion>,
    pub rest: Rest,
    pub exits: Shared<Exits>,
}

impl Drop for Run {
    fn drop(self) {
        let Run {
            context,
            source,
            rest,
            exits,
        } = self;
        drop(context);
        drop(source);
        drop(rest);
        drop(exits);
    }
}

/// Where the source holds, the target holds.
pub struct Entail {
    pub context: Context,
    pub source: Shared<Assertion>,
    pub target: Shared<Assertion>,
}

impl Drop for Entail {
    fn drop(self) {
        let Entail {
            context,
            source,
            target,
        } = self;
        drop(context);
        drop(source);
        drop(target);
    }
}

/// The target is true.
pub struct Pure {
    pub context: Context,
    pub target: Formula,
}

impl Drop for Pure {
    fn drop(self) {
        let Pure { context, target } = self;
        drop(context);
        drop(target);
    }
}

/// A goal of a proof.
pub enum Goal {
    Run(Run),
    Entail(Entail),
    Pure(Pure),
}

impl Drop for Goal {
    fn drop(self) {
        match self {
            Goal::Run(run) => drop(run),
            Goal::Entail(entail) => drop(entail),
            Goal::Pure(pure) => drop(pure),
        }
    }
}

/// Goals in order.
pub type GoalList = Items<Goal>;
