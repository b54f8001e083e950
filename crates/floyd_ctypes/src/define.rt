ghost use Rattle.std.specs.Prelude.{◌≡◌};

use std::alloc::{AllocError, AllocFailed};

/// Why a struct was not completed.
#[derive(Debug)]
pub enum DefineStop {
    /// It is complete.
    Again,
    /// The type of a field has no size.
    Incomplete,
    Memory,
}

impl Drop for DefineStop {
    fn drop(self) {
        match self {
            DefineStop::Again => {}
            DefineStop::Incomplete => {}
            DefineStop::Memory => {}
        }
    }
}

impl From<AllocError> for DefineStop {
    ghost use Rattle.floyd_ctypes.specs.declared.define.DefineStop.TheVariants.{Memory};

    ghost from_gives = { λ _ e. e ≡ Memory };

    fn from(_error: AllocError) -> DefineStop {
        DefineStop::Memory
    }
}

impl<T: Drop> From<AllocFailed<T>> for DefineStop {
    ghost use Rattle.floyd_ctypes.specs.declared.define.DefineStop.TheVariants.{Memory};

    ghost from_gives = { λ _ e. e ≡ Memory };

    fn from(_error: AllocFailed<T>) -> DefineStop {
        DefineStop::Memory
    }
}
