ghost use Rattle.floyd_loop_soundness.specs.Laws as specs;

/// A goal whose next statement is a loop holds where the goals do that `forward_loop` makes of it.
pub fn loop_is_sound()
    ensures { specs.LoopsAreSound }
{}
