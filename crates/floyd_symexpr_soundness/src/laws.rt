ghost use Rattle.floyd_symexpr_soundness.specs.Laws as specs;

/// Where the state meets the source, and what the expression needs is so, the machine evaluates it to the value of its
/// term, and loads nothing for it.
pub fn expressions_have_values()
    ensures { specs.ExpressionsAgree }
{}

/// An object that was located stands at the place to which the path leads from the root of the part that it lies in. What
/// is loaded there is the item of the part's value, and where a value is stored there, the part has the updated value.
pub fn objects_lie_in_parts()
    ensures { specs.ObjectsLieInParts }
{}
