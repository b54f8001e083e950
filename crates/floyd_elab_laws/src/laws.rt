ghost use Rattle.floyd_elab_laws.specs.Laws as specs;
ghost use Rattle.floyd_elab_laws.specs.Places as places;
ghost use Rattle.floyd_elab_laws.specs.Reads as reads;
ghost use Rattle.floyd_elab_laws.specs.Typings as typings;

/// Temporaries that hold what their types allow hold whole numbers.
pub fn allowed_temporaries_hold_numbers()
    ensures { specs.AllowedTemporariesHoldNumbers }
{}

/// An integer expression without `&&`, `||`, `?:` and reads of memory becomes one expression of Clight, whose value is
/// the one that C gives, and which has none where the operators of CompCert's Clight have none. That is where C leaves
/// it undefined, but for two choices: a left shift of a signed number keeps its low bits (`1 << 31` is the least int),
/// which C leaves undefined; and a conversion out of range wraps round and `>>` of a negative number keeps its sign,
/// which C leaves to the implementation. Only the variables that stand in the expression need hold numbers.
pub fn straight_expressions_keep_their_meaning()
    ensures { specs.StraightExpressionsKeepTheirMeaning }
{}

/// Any integer expression without reads of memory becomes statements that set temporaries drawn for it, and one
/// expression of Clight. Behind the statements it has C's value in the same sense, also where a part is not evaluated
/// that has none.
pub fn expressions_keep_their_meaning()
    ensures { specs.ExpressionsKeepTheirMeaning }
{}

/// What those statements make of the temporaries is what the machine makes of them, step by step.
pub fn runs_are_steps()
    ensures { specs.RunsAreSteps }
{}

/// The names drawn for temporaries differ from each other, and from those of a function's variables.
pub fn drawn_names_are_apart()
    ensures pulled { specs.PulledNamesDiffer }
    ensures variables { specs.VariablesAreApart }
{}

/// Distinct variables that a function sees are distinct places in Clight, also where they have one name: a local variable
/// and one of the file, or two local variables. The names of C have no mark in them. The machine finds distinct blocks
/// for them.
pub fn distinct_variables_are_distinct_places()
    ensures distinct { places.DistinctVariablesAreDistinctPlaces }
    ensures file { places.FileVariablesHaveTheirPlaces }
    ensures own { places.OwnVariablesHaveTheirPlaces }
{}

/// No expression that elaboration makes loads from memory, but the whole right side of a set of a temporary drawn for
/// that read: of an expression, of an effect, and of the body of a function. What is said to read nothing has no places
/// that the machine loads.
pub fn memory_is_read_by_pulls()
    ensures loads_of_values { reads.ValuesWithoutReadsLoadNothing }
    ensures loads_of_places { reads.PlacesWithoutReadsLoadNothing }
    ensures values { reads.ValuesReadByPulls }
    ensures effects { reads.EffectsReadByPulls }
    ensures bodies { reads.BodiesReadByPulls }
{}

/// Elaboration finds in each expression the operand that typing finds, and refuses where typing refuses, with the same
/// code at the same place; the expression of Clight has the type that typing gives.
pub fn elaboration_types_as_typing_does()
    ensures agree { typings.ElaborationTypesAsTypingDoes }
    ensures types { typings.ExpressionsHaveTheirTypes }
{}
