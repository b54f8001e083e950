ghost use Rattle.std.specs.Prelude.{◌≡◌, IfOk};
ghost use Rattle.floyd_control.specs.Parts.{behind as behind_lem};
ghost use Rattle.floyd_goal.specs.Goals.{some_left};

use floyd_assert::Defs;
use floyd_conditions::Reader;
use floyd_goal_runs::{Rest, Run};
use std::alloc::{AllocError, Global};

/// A goal whose next statement is taken apart, and the items of which it may speak.
#[derive(Clone, Copy)]
pub(crate) struct Running<'a> {
    pub(crate) alloc: Global,
    pub(crate) run: &'a Run,
    pub(crate) defs: &'a Defs,
}

impl<'a> Running<'a> {
    /// Whether the source has existentials without names.
    pub(crate) fn is_pending(self) -> bool
        ensures { result ≡ some_left self.entry.run.now.source.existentials }
    {
        !self.run.source.get().existentials.as_slice().is_empty()
    }

    /// The statements behind the next one.
    pub(crate) fn behind(self) -> Result<Rest, AllocError>
        ensures { IfOk result (λ r. r ≡ behind_lem self.entry.run.now) }
    {
        let mut rest = self.run.rest.share()?;
        rest.advance();
        Ok(rest)
    }

    /// What a test of the source is read with.
    pub(crate) fn reader(self) -> Reader<'a>
        ensures source { result.source.now ≡ self.entry.run.now.source }
        ensures defs { result.defs.now ≡ self.entry.defs.now }
    {
        Reader {
            alloc: self.alloc,
            source: self.run.source.get(),
            blocks: self.run.exits.get().ret.blocks.get(),
            defs: self.defs,
        }
    }
}
