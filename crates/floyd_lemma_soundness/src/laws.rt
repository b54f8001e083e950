ghost use Rattle.floyd_entail_lemmas.specs.Apply as apply;
ghost use Rattle.floyd_entail_lemmas.specs.Hypothesis as hypothesis;
ghost use Rattle.floyd_lemma_soundness.specs.Rows.{ApplyIsGiven, HypothesisIsGiven};
ghost use Rattle.floyd_predicate_soundness.specs.Rows.{IsSoundOverItems};

/// A goal holds where it does with the right side of a proved lemma in place of the left one, if the left side's formulas are
/// true.
pub fn apply_is_sound()
    ensures { IsSoundOverItems ApplyIsGiven apply.Row }
{}

/// So it does with the lemma whose proof by induction it is in, for a part of what the variable stood for.
pub fn apply_ih_is_sound()
    ensures { IsSoundOverItems HypothesisIsGiven hypothesis.Row }
{}
