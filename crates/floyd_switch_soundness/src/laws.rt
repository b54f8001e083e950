ghost use Rattle.floyd_switch_soundness.specs.Laws as specs;

/// A well-formed goal whose next statement is a `switch` holds where the goals do that `forward_switch` makes of it.
pub fn switch_is_sound()
    ensures { specs.SwitchesAreSound }
{}
