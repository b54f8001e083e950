ghost use Rattle.floyd_rewriting_laws.specs.Laws.{AssertionRewritingKeeps};

/// An assertion holds after the rewriting exactly where it did, if both terms have one value.
pub fn rewriting_keeps_assertions()
    ensures { AssertionRewritingKeeps }
{}
