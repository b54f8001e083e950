ghost use Rattle.floyd_assert_laws.specs.Bare as bare;
ghost use Rattle.floyd_assert_laws.specs.Free as free;
ghost use Rattle.floyd_assert_laws.specs.InChanged as changed;

/// What assertions mean looks at the variables alone that are free in them.
pub fn look_at_free()
    ensures assertions { free.AssertionsLookAtFree }
    ensures postconditions { free.PostsLookAtFree }
{}

/// With terms in place of variables, parts and assertions hold where they do in the changed environment.
pub fn hold_in_changed()
    ensures parts { changed.PartsHoldInChanged }
    ensures assertions { changed.HoldsInChanged }
{}

/// What speaks of no local variable of a function means the same wherever these lie.
pub fn look_at_no_local()
    ensures assertions { bare.BareAssertionsHold }
    ensures bodies { bare.BareBodiesHold }
    ensures postconditions { bare.BarePostsHold }
{}
