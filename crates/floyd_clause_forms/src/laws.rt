ghost use Rattle.floyd_clause_forms.specs.Laws as laws;

/// The clause of a predicate is well formed wherever its terms are.
pub fn clauses_are_well_formed()
    ensures { laws.ClausesAreWellFormed }
{}

/// The terms that `fold` is given may stand in the place of a predicate's arguments and of its clause's existentials.
pub fn folds_are_made()
    ensures { laws.FoldsAreMade }
{}
