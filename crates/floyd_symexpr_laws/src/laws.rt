ghost use Rattle.floyd_symexpr_laws.specs.Laws as specs;

/// An operator on two numbers gives the value of its row's term.
pub fn two_numbers_agree()
    ensures { specs.TwoNumbersAgree }
{}

/// So does an operator on one number.
pub fn one_number_agrees()
    ensures { specs.OneNumberAgrees }
{}

/// And a cast of a number to a kind.
pub fn cast_numbers_agree()
    ensures { specs.CastNumbersAgree }
{}
