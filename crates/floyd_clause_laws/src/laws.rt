ghost use Rattle.floyd_clause_laws.specs.Laws as laws;

/// A predicate holds exactly where its clause does: its body, or the body of the case for the constructor of its first
/// argument.
pub fn predicates_are_clauses()
    ensures { laws.PredicatesAreClauses }
{}

/// The terms that are taken may stand in a predicate that is well formed, wherever its arguments and the names of its
/// patterns do.
pub fn clauses_are_made()
    ensures { laws.ClausesAreMade }
{}
