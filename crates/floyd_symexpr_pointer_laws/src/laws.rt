ghost use Rattle.floyd_symexpr_pointer_laws.specs.Laws as specs;

/// An operator on two operands gives the value of its row's term.
pub fn binary_agrees()
    ensures { specs.BinaryAgrees }
{}

/// So does an operator on one operand.
pub fn unary_agrees()
    ensures { specs.UnaryAgrees }
{}

/// And a cast.
pub fn cast_agrees()
    ensures { specs.CastAgrees }
{}

/// What the rows of operators and casts need stands behind what was needed before.
pub fn needs_grow()
    ensures binary { specs.BinaryGrows }
    ensures unary { specs.UnaryGrows }
    ensures cast { specs.CastGrows }
{}
