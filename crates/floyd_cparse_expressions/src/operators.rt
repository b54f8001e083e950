//! The operators that a token is.
ghost use Rattle.std.specs.Prelude.{◌≡◌, Some, None};
ghost use Rattle.floyd_lex.specs.declared.kinds.TokenKind.TheVariants as k;
ghost use Rattle.floyd_cparse_expressions.specs.Expressions as e;

use crate::values::Assigning;
use floyd_cparse_tokens::Sight;
use floyd_cparse_trees::{BinaryOp, MemberOp, PrefixOp, StepOp};
use floyd_int::IntOp;
use floyd_lex::{Punctuator, TokenKind};

pub(crate) fn prefix_op(sight: &Sight<'_>) -> Option<PrefixOp>
    ensures { result ≡ e.prefix_op sight.now.token.kind }
{
    match sight.kind() {
        TokenKind::Punctuator(mark) => prefix_op_of(mark),
        _ => None,
    }
}

pub(crate) fn step_op(sight: &Sight<'_>) -> Option<StepOp>
    ensures { result ≡ e.step_op sight.now.token.kind }
{
    match sight.kind() {
        TokenKind::Punctuator(Punctuator::PlusPlus) => Some(StepOp::Increment),
        TokenKind::Punctuator(Punctuator::MinusMinus) => Some(StepOp::Decrement),
        _ => None,
    }
}

pub(crate) fn member_op(sight: &Sight<'_>) -> Option<MemberOp>
    ensures { result ≡ e.member_op sight.now.token.kind }
{
    match sight.kind() {
        TokenKind::Punctuator(Punctuator::Dot) => Some(MemberOp::Dot),
        TokenKind::Punctuator(Punctuator::Arrow) => Some(MemberOp::Arrow),
        _ => None,
    }
}

/// A binary operator with its level.
pub(crate) fn binary_op(sight: &Sight<'_>) -> Option<(u32, BinaryOp)>
    ensures { result ≡ e.binary_op sight.now.token.kind }
{
    match sight.kind() {
        TokenKind::Punctuator(mark) => binary_op_of(mark),
        _ => None,
    }
}

fn assign_op(sight: &Sight<'_>) -> Option<Option<IntOp>>
    ensures { result ≡ e.assign_op sight.now.token.kind }
{
    match sight.kind() {
        TokenKind::Punctuator(mark) => assign_op_of(mark),
        _ => None,
    }
}

pub(crate) fn assignment_of(sight: &Sight<'_>) -> Option<Assigning>
    ensures { result ≡ e.assigning_of sight.now }
{
    match assign_op(sight) {
        Some(op) => Some(Assigning {
            op,
            place: sight.place(),
        }),
        None => None,
    }
}

fn prefix_op_of(mark: Punctuator) -> Option<PrefixOp>
    ensures { result ≡ e.prefix_op (k.Punctuator mark) }
{
    match mark {
        Punctuator::Minus => Some(PrefixOp::Minus),
        Punctuator::Plus => Some(PrefixOp::Plus),
        Punctuator::Tilde => Some(PrefixOp::Complement),
        Punctuator::Exclamation => Some(PrefixOp::Not),
        Punctuator::Star => Some(PrefixOp::Dereference),
        Punctuator::Ampersand => Some(PrefixOp::Address),
        _ => None,
    }
}

fn binary_op_of(mark: Punctuator) -> Option<(u32, BinaryOp)>
    ensures { result ≡ e.binary_op (k.Punctuator mark) }
{
    match mark {
        Punctuator::Star => Some((1, BinaryOp::Int(IntOp::Mul))),
        Punctuator::Slash => Some((1, BinaryOp::Int(IntOp::Div))),
        Punctuator::Percent => Some((1, BinaryOp::Int(IntOp::Rem))),
        Punctuator::Plus => Some((2, BinaryOp::Int(IntOp::Add))),
        Punctuator::Minus => Some((2, BinaryOp::Int(IntOp::Sub))),
        Punctuator::ShiftLeft => Some((3, BinaryOp::Int(IntOp::Shl))),
        Punctuator::ShiftRight => Some((3, BinaryOp::Int(IntOp::Shr))),
        Punctuator::Less => Some((4, BinaryOp::Int(IntOp::Lt))),
        Punctuator::Greater => Some((4, BinaryOp::Int(IntOp::Gt))),
        Punctuator::LessEqual => Some((4, BinaryOp::Int(IntOp::Le))),
        Punctuator::GreaterEqual => Some((4, BinaryOp::Int(IntOp::Ge))),
        Punctuator::EqualEqual => Some((5, BinaryOp::Int(IntOp::Eq))),
        Punctuator::NotEqual => Some((5, BinaryOp::Int(IntOp::Ne))),
        Punctuator::Ampersand => Some((6, BinaryOp::Int(IntOp::And))),
        Punctuator::Caret => Some((7, BinaryOp::Int(IntOp::Xor))),
        Punctuator::Bar => Some((8, BinaryOp::Int(IntOp::Or))),
        Punctuator::AndAnd => Some((9, BinaryOp::And)),
        Punctuator::BarBar => Some((10, BinaryOp::Or)),
        _ => None,
    }
}

fn assign_op_of(mark: Punctuator) -> Option<Option<IntOp>>
    ensures { result ≡ e.assign_op (k.Punctuator mark) }
{
    match mark {
        Punctuator::Equal => Some(None),
        Punctuator::StarEqual => Some(Some(IntOp::Mul)),
        Punctuator::SlashEqual => Some(Some(IntOp::Div)),
        Punctuator::PercentEqual => Some(Some(IntOp::Rem)),
        Punctuator::PlusEqual => Some(Some(IntOp::Add)),
        Punctuator::MinusEqual => Some(Some(IntOp::Sub)),
        Punctuator::ShiftLeftEqual => Some(Some(IntOp::Shl)),
        Punctuator::ShiftRightEqual => Some(Some(IntOp::Shr)),
        Punctuator::AmpersandEqual => Some(Some(IntOp::And)),
        Punctuator::CaretEqual => Some(Some(IntOp::Xor)),
        Punctuator::BarEqual => Some(Some(IntOp::Or)),
        _ => None,
    }
}
