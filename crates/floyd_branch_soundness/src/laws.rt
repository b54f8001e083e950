ghost use Rattle.floyd_branch_soundness.specs.Laws as specs;

/// A well-formed goal whose next statement is an `if` holds where the goals do that `forward_if` makes of it.
pub fn if_is_sound()
    ensures { specs.IfsAreSound }
{}
