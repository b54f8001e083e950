ghost use Rattle.std.specs.Prelude.{◌≡◌};

use std::alloc::{AllocError, AllocFailed};

/// Why a node was not made: its kids are not of the sorts that its head takes, it would be larger than 65536 nodes or
/// higher than 256, or memory ran out.
#[derive(Clone, Copy, PartialEq, Eq, Debug)]
pub enum MakeStop {
    IllSorted,
    TooLarge,
    Memory,
}

impl From<AllocError> for MakeStop {
    ghost use Rattle.floyd_tree.specs.declared.stop.MakeStop.TheVariants.{Memory};

    ghost from_gives = { λ _ e. e ≡ Memory };

    fn from(_error: AllocError) -> MakeStop {
        MakeStop::Memory
    }
}

impl<T: Drop> From<AllocFailed<T>> for MakeStop {
    ghost use Rattle.floyd_tree.specs.declared.stop.MakeStop.TheVariants.{Memory};

    ghost from_gives = { λ _ e. e ≡ Memory };

    fn from(_error: AllocFailed<T>) -> MakeStop {
        MakeStop::Memory
    }
}

/// Why nothing was rewritten: the path leaves the term, or a node could not be made.
#[derive(Clone, Copy, PartialEq, Eq, Debug)]
pub enum RewriteStop {
    IllSorted,
    TooLarge,
    PathAbsent,
    Memory,
}

impl From<MakeStop> for RewriteStop {
    ghost use Rattle.floyd_tree.specs.Replace.{as_rewrite};

    ghost from_gives = { λ stop e. e ≡ as_rewrite stop };

    fn from(stop: MakeStop) -> RewriteStop {
        match stop {
            MakeStop::IllSorted => RewriteStop::IllSorted,
            MakeStop::TooLarge => RewriteStop::TooLarge,
            MakeStop::Memory => RewriteStop::Memory,
        }
    }
}

impl From<AllocError> for RewriteStop {
    ghost use Rattle.floyd_tree.specs.declared.stop.RewriteStop.TheVariants.{Memory};

    ghost from_gives = { λ _ e. e ≡ Memory };

    fn from(_error: AllocError) -> RewriteStop {
        RewriteStop::Memory
    }
}

impl<T: Drop> From<AllocFailed<T>> for RewriteStop {
    ghost use Rattle.floyd_tree.specs.declared.stop.RewriteStop.TheVariants.{Memory};

    ghost from_gives = { λ _ e. e ≡ Memory };

    fn from(_error: AllocFailed<T>) -> RewriteStop {
        RewriteStop::Memory
    }
}
