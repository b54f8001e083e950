ghost use Rattle.floyd_truth.specs.Laws as specs;

/// Formulas that are equal up to bound names have one truth.
pub fn have_one_truth()
    ensures { specs.HaveOneTruth }
{}

/// The value of a term after substitution is its value in the changed environment.
pub fn means_in_changed()
    ensures { specs.MeansInChanged }
{}

/// The truth of a formula after substitution is its truth in the changed environment.
pub fn is_true_in_changed()
    ensures { specs.TrueInChanged }
{}
