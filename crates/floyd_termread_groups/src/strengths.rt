//! How strong each operator is.
ghost use Rattle.std.specs.Prelude.{◌≡◌};
ghost use Rattle.floyd_termread_groups.specs.Strengths as s;

use crate::grouped::Strength;
use floyd_termread_trees::Infix;

/// Operators of one strength: those between operands, or those before a formula.
#[derive(Clone, Copy)]
pub enum Level {
    Between(Strength),
    Before,
}

/// All levels, the weakest first.
pub(crate) fn table() -> [Level; 9]
    ensures { result ≡ s.table }
{
    [
        Level::Between(Strength::Implies),
        Level::Between(Strength::Or),
        Level::Between(Strength::And),
        Level::Before,
        Level::Between(Strength::Relation),
        Level::Between(Strength::Cons),
        Level::Between(Strength::Append),
        Level::Between(Strength::Sum),
        Level::Between(Strength::Product),
    ]
}

/// How strong an operator between operands is.
pub fn strength_of(op: Infix) -> Strength
    ensures { result ≡ s.strength_of op }
{
    match op {
        Infix::Implies => Strength::Implies,
        Infix::Or => Strength::Or,
        Infix::And => Strength::And,
        Infix::Equal
        | Infix::Unequal
        | Infix::AtMost
        | Infix::Less
        | Infix::AtLeast
        | Infix::Greater => Strength::Relation,
        Infix::Cons => Strength::Cons,
        Infix::Append => Strength::Append,
        Infix::Add | Infix::Sub => Strength::Sum,
        Infix::Mul => Strength::Product,
    }
}

pub(crate) fn has_strength(strength: Strength, op: Infix) -> bool
    ensures { result ≡ s.has_strength strength op }
{
    strength_of(op) == strength
}
