ghost use Rattle.floyd_while_soundness.specs.Laws as specs;

/// A well-formed goal whose next statement is a loop that begins with a test holds where the goals do that `forward_while`
/// makes of it.
pub fn while_is_sound()
    ensures { specs.WhilesAreSound }
{}
