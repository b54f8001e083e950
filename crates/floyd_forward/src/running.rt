ghost use Rattle.std.specs.Prelude.{◌≡◌, ◌∷◌, [], IfOk};
ghost use Rattle.floyd_forward.specs.Set.{runs_on as runs_on_lem};
ghost use Rattle.floyd_goal.specs.Goals.{some_left};

use floyd_assert::{Assertion, Defs};
use floyd_clight::BlockList;
use floyd_ctypes::StructTable;
use floyd_goal_runs::{Context, Goal, Run, run_goal};
use floyd_text::Shared;
use std::alloc::{AllocError, Global};

/// A goal whose next statement is done, and the items of which it may speak.
#[derive(Clone, Copy)]
pub(crate) struct Running<'a> {
    pub(crate) alloc: Global,
    pub(crate) run: &'a Run,
    pub(crate) defs: &'a Defs,
}

impl<'a> Running<'a> {
    pub(crate) fn source(self) -> &'a Assertion
        ensures { result.now ≡ self.entry.run.now.source }
    {
        self.run.source.get()
    }

    pub(crate) fn structs(self) -> &'a StructTable
        ensures { result.now ≡ self.entry.defs.now.structs }
    {
        &self.defs.structs
    }

    /// The local variables with blocks.
    pub(crate) fn blocks(self) -> &'a BlockList
        ensures { result.now ≡ self.entry.run.now.exits.ret.blocks }
    {
        self.run.exits.get().ret.blocks.get()
    }

    /// Whether the source has existentials without names.
    pub(crate) fn is_pending(self) -> bool
        ensures { result ≡ some_left self.entry.run.now.source.existentials }
    {
        !self.run.source.get().existentials.as_slice().is_empty()
    }

    /// The goal of what is left behind the next statement, from that source.
    pub(crate) fn runs_on(self, context: Context, source: Assertion) -> Result<Goal, AllocError>
        ensures { IfOk result (λ g. g ≡ runs_on_lem self.entry.run.now context source) }
    {
        let source = Shared::new(self.alloc, source)?;
        let mut rest = self.run.rest.share()?;
        rest.advance();
        let exits = self.run.exits.share()?;
        run_goal(context, source, rest, exits)
    }
}
