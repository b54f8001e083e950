ghost use Rattle.floyd_lemma_laws.specs.Laws as laws;

/// The terms that are taken may stand in a lemma that is well formed, wherever its variables do.
pub fn lemmas_are_taken()
    ensures { laws.LemmasAreTaken }
{}
