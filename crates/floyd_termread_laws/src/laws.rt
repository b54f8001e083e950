ghost use Rattle.floyd_termread_laws.specs.Laws as specs;

/// There is one answer at most of a sort, of binders, and of the existentials before an assertion.
pub fn binders_have_one_answer()
    ensures { specs.BindersHaveOneAnswer }
{}

/// There is one answer at most of a part of memory.
pub fn part_has_one_answer()
    ensures { specs.PartHasOneAnswer }
{}

/// There is one answer at most of an assertion. So `read_assertion` answers what its contract says, and nothing else, but where
/// memory runs out. Of terms, formulas, types and paths `floyd_termread_phrases` has this law.
pub fn assertion_has_one_answer()
    ensures { specs.AssertionHasOneAnswer }
{}
