ghost use Rattle.floyd_assign_soundness.specs.Laws.{IsAssignment};
ghost use Rattle.floyd_forward_soundness.specs.Laws.{IsSoundOn};

/// A well-formed goal whose next statement assigns to an object in memory holds where the goals do that `forward` makes of
/// it.
pub fn assign_is_sound()
    ensures { IsSoundOn IsAssignment }
{}
