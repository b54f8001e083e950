ghost use Rattle.std.specs.Prelude.{◌≡◌};

use floyd_text::Refusal;
use std::alloc::{AllocError, AllocFailed};

/// Why a phrase is not read: it is refused, or the text is cut off inside it, or memory ran out.
#[derive(Debug)]
pub enum JudgeStop {
    Refused(Refusal),
    CutOff,
    Memory,
}

impl Drop for JudgeStop {
    fn drop(self) {
        match self {
            JudgeStop::Refused(refusal) => drop(refusal),
            JudgeStop::CutOff => {}
            JudgeStop::Memory => {}
        }
    }
}

impl From<AllocError> for JudgeStop {
    ghost use Rattle.floyd_termread_wants.specs.declared.stop.JudgeStop.TheVariants.{Memory};

    ghost from_gives = { λ _ e. e ≡ Memory };

    fn from(_error: AllocError) -> JudgeStop {
        JudgeStop::Memory
    }
}

impl<T: Drop> From<AllocFailed<T>> for JudgeStop {
    ghost use Rattle.floyd_termread_wants.specs.declared.stop.JudgeStop.TheVariants.{Memory};

    ghost from_gives = { λ _ e. e ≡ Memory };

    fn from(_error: AllocFailed<T>) -> JudgeStop {
        JudgeStop::Memory
    }
}
