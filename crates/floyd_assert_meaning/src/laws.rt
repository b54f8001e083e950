ghost use Rattle.floyd_assert_meaning.specs.Alike as alike;
ghost use Rattle.floyd_assert_meaning.specs.Laws as laws;
ghost use Rattle.floyd_assert_meaning.specs.Examples as examples;

/// `TT` holds of any memory. A predicate holds exactly where the assertion does that it stands for.
pub fn parts_of_assertions()
    ensures anything { laws.AnythingHolds }
    ensures opened { laws.PredicatesAreOpened }
{}

/// The parts of an assertion are a sum without order: those of two lists hold of a sum, a part may be taken out and be put
/// back, and in another order they hold of the same memory.
pub fn sums_of_parts()
    ensures sums { laws.PartsAreSums }
    ensures taken_out { laws.PartsAreTakenOut }
    ensures no_order { laws.PartsHaveNoOrder }
{}

/// What is equal up to bound names means the same.
pub fn equal_up_to_names()
    ensures parts { laws.SamePartsMeanOne }
    ensures assertions { laws.SameAssertionsMeanOne }
    ensures preconditions { laws.SameFunspecsAskOne }
    ensures postconditions { laws.SameFunspecsGiveOne }
{}

/// Worked examples: a predicate over lists, an assertion about memory, and a specification.
pub fn worked_examples()
    ensures { examples.Worked }
{}

/// The value of a term looks at the variables that occur in it, the truth of a formula at those that are free in it, and a
/// part of memory at the values of its terms.
pub fn what_is_looked_at()
    ensures terms { laws.TermsLookAtVariables }
    ensures formulas { laws.FormulasLookAtFree }
    ensures parts { laws.PartsLookAtTerms }
{}

/// Assertions that say the same one by one, each with its own data for variables, hold of the same temporaries and memory.
pub fn say_alike()
    ensures assertions { alike.AlikeHoldAlike }
    ensures bodies { alike.AlikeBodiesHoldAlike }
    ensures postconditions { alike.AlikePostsHoldAlike }
{}
