ghost use Rattle.floyd_goal_forms.specs.Laws as laws;

/// The proof of a well-formed lemma starts with a well-formed goal.
pub fn lemmas_start_well_formed()
    ensures { laws.LemmasStartWellFormed }
{}
