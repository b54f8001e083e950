ghost use Rattle.floyd_symexpr_forms.specs.Laws as specs;

/// Where the terms of an assertion are well formed, so is what an expression is evaluated to: its term, its side formulas and
/// the terms that must be valid.
pub fn evaluations_fit()
    ensures { specs.EvaluationsFit }
{}

/// And so is where an object was located: its root, its path, and what it needs.
pub fn locations_fit()
    ensures { specs.LocationsFit }
{}

/// Each node of the item of a value along a path is allowed, where each node of the value is.
pub fn items_are_allowed()
    ensures { specs.ItemsAreAllowed }
{}
