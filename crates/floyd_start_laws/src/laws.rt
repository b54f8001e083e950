ghost use Rattle.floyd_start_laws.specs.Laws as laws;

/// A lemma is true where its start goal holds.
pub fn lemma_starts_prove()
    ensures { laws.LemmaStartsProve }
{}

/// A function's body meets its specification where its start goal holds.
pub fn function_starts_prove()
    ensures { laws.FunctionStartsProve }
{}
