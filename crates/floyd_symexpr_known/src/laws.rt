ghost use Rattle.floyd_symexpr_known.specs.Laws as specs;

/// The term of a typed expression mentions known names alone, and so does what it needs, where the assertion does.
pub fn evaluations_are_known()
    ensures { specs.EvaluationsAreKnown }
{}

/// And so does where an object lies.
pub fn locations_are_known()
    ensures { specs.LocationsAreKnown }
{}
