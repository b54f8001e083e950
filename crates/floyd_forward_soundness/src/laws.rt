ghost use Rattle.floyd_forward_soundness.specs.Laws as specs;

/// A well-formed goal whose next statement sets a temporary to an expression that has a term holds where the goals do that
/// `forward` makes of it.
pub fn set_is_sound()
    ensures { specs.IsSoundOn (specs.IsSetToTerm) }
{}

/// And so does one whose next statement is a break or a continue.
pub fn leaving_is_sound()
    ensures { specs.IsSoundOn (specs.IsLeave) }
{}
