ghost use Rattle.floyd_import_laws.specs.Laws as laws;

/// What the specification of an import asks and gives follows from the function's own one where the two goals hold with
/// which the import's proof starts.
pub fn import_starts_prove()
    ensures { laws.ImportStartsProve }
{}
