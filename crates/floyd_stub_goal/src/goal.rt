ghost use Rattle.std.specs.Prelude.{◌≡◌};
ghost use Rattle.floyd_stub_goal.specs.Sides.{run_of, entail_of};

use crate::rest::Rest;
use floyd_ctypes::CType;
use floyd_stub_assert::{Assertion, Formula, FormulaList, Term};
use sqlite_items::Items;

/// What a goal may use.
pub struct Context {
    pub hypotheses: FormulaList,
}

impl Drop for Context {
    fn drop(self) {
        let Context { hypotheses } = self;
        drop(hypotheses);
    }
}

/// What must hold where a function returns.
pub struct Return {
    pub post: Assertion,
    /// The term of the result.
    pub value: Term,
    /// The type of the result.
    pub result: CType,
}

impl Return {
    fn into_post(self) -> Assertion
        ensures { result ≡ self.post }
    {
        let Return {
            post,
            value: _,
            result: _,
        } = self;
        post
    }
}

impl Drop for Return {
    fn drop(self) {
        let Return {
            post,
            value,
            result,
        } = self;
        drop(post);
        drop(value);
        drop(result);
    }
}

/// What must hold where statements are left.
pub struct Exits {
    pub normal: Assertion,
    pub ret: Return,
}

impl Exits {
    fn into_normal(self) -> Assertion
        ensures { result ≡ self.normal }
    {
        let Exits { normal, ret: _ } = self;
        normal
    }

    fn into_post(self) -> Assertion
        ensures { result ≡ self.ret.post }
    {
        let Exits { normal: _, ret } = self;
        ret.into_post()
    }
}

impl Drop for Exits {
    fn drop(self) {
        let Exits { normal, ret } = self;
        drop(normal);
        drop(ret);
    }
}

/// From the source the rest of a function's statements runs, and is left by an exit only where that holds.
pub struct Run {
    pub context: Context,
    pub source: Assertion,
    pub rest: Rest,
    pub exits: Exits,
}

impl Run {
    /// That the normal exit holds where the source does.
    pub fn into_normal(self) -> Entail
        ensures { result ≡ record { context = self.context; source = self.source; target = self.exits.normal } }
    {
        let Run {
            context,
            source,
            rest: _,
            exits,
        } = self;
        Entail {
            context,
            source,
            target: exits.into_normal(),
        }
    }

    /// That the postcondition holds where the source does.
    pub fn into_post(self) -> Entail
        ensures { result ≡ record { context = self.context; source = self.source; target = self.exits.ret.post } }
    {
        let Run {
            context,
            source,
            rest: _,
            exits,
        } = self;
        Entail {
            context,
            source,
            target: exits.into_post(),
        }
    }
}

impl Drop for Run {
    fn drop(self) {
        let Run {
            context,
            source,
            rest,
            exits,
        } = self;
        drop(context);
        drop(source);
        drop(rest);
        drop(exits);
    }
}

/// Where the source holds, the target holds.
pub struct Entail {
    pub context: Context,
    pub source: Assertion,
    pub target: Assertion,
}

impl Entail {
    /// What it may use, and the formulas of its target.
    pub fn into_target(self) -> (Context, FormulaList)
        ensures { result ≡ (self.context, self.target.prop) }
    {
        let Entail {
            context,
            source: _,
            target,
        } = self;
        (context, target.into_prop())
    }
}

impl Drop for Entail {
    fn drop(self) {
        let Entail {
            context,
            source,
            target,
        } = self;
        drop(context);
        drop(source);
        drop(target);
    }
}

/// The target is true.
pub struct Pure {
    pub context: Context,
    pub target: Formula,
}

impl Drop for Pure {
    fn drop(self) {
        let Pure { context, target } = self;
        drop(context);
        drop(target);
    }
}

/// A goal of a proof.
pub enum Goal {
    Run(Run),
    Entail(Entail),
    Pure(Pure),
}

impl Goal {
    /// The run that it is a goal of.
    pub fn into_run(self) -> Option<Run>
        ensures { result ≡ run_of self }
    {
        match self {
            Goal::Run(run) => Some(run),
            Goal::Entail(_) => None,
            Goal::Pure(_) => None,
        }
    }

    /// The entailment that it is.
    pub fn into_entail(self) -> Option<Entail>
        ensures { result ≡ entail_of self }
    {
        match self {
            Goal::Run(_) => None,
            Goal::Entail(entail) => Some(entail),
            Goal::Pure(_) => None,
        }
    }
}

impl Drop for Goal {
    fn drop(self) {
        match self {
            Goal::Run(run) => drop(run),
            Goal::Entail(entail) => drop(entail),
            Goal::Pure(pure) => drop(pure),
        }
    }
}

pub type GoalList = Items<Goal>;
