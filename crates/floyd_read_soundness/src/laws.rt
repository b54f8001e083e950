ghost use Rattle.floyd_forward_soundness.specs.Laws.{IsSoundOn};
ghost use Rattle.floyd_read_soundness.specs.Laws.{IsSetFromMemory};

/// A well-formed goal whose next statement sets a temporary to what is read from memory holds where the goals do that
/// `forward` makes of it.
pub fn read_is_sound()
    ensures { IsSoundOn IsSetFromMemory }
{}
