ghost use Rattle.floyd_return_soundness.specs.Laws as specs;

/// A well-formed goal whose next statement is a return holds where the goals do that `forward` makes of it. A value that is
/// returned is of a scalar type, and not beyond all bounds.
pub fn return_is_sound()
    ensures { specs.ReturnsAreSound }
{}

/// And so does one with no statement left, at the function's end.
pub fn end_is_sound()
    ensures { specs.EndsAreSound }
{}
