//! The operators of C on integers.

ghost use Rattle.std.specs.Prelude.{◌≡◌, ◌≤◌, ◌<◌, ◌^◌, ◌*ℤ◌, ◌↔◌, ◌⊎◌, neg_ℤ, IsTrue, IsNone, IfSome, SomeIff};
ghost use Rattle.std.specs.Option.{unwrap_or};
ghost use Rattle.floyd_int.specs.Kind.{width, is_signed, InRange, value_of, repr_of};
ghost use Rattle.floyd_int.specs.Operation.{operation_of, negation_of, arithmetic, quotient, remainder, left_shift, right_shift, can_divide, can_shift, is_comparison, IsUndefined, Overflows};

use crate::bits::{repr, value};
use crate::kinds::{IntKind, IntOp};

/// The result of arithmetic that is `z` as a whole number.
fn arithmetic(kind: IntKind, z: i128) -> Option<u64>
    ensures exact { result ≡ arithmetic kind z }
    ensures below { IfSome result (λ c. c < 2 ^ width kind) }
{
    if kind.is_signed() && !kind.contains(z) {
        None
    } else {
        Some(repr(kind, z))
    }
}

/// The bits of the product. It may have 128 bits where the kind is unsigned.
fn product_bits(kind: IntKind, a: u64, b: u64) -> u64
    requires left { a < 2 ^ width kind }
    requires right { b < 2 ^ width kind }
    ensures bits { result ≡ repr_of kind (value_of kind a *ℤ value_of kind b) }
    ensures below { result < 2 ^ width kind }
{
    (u128::from(a) * u128::from(b) % (1 << kind.width())) as u64
}

fn product(kind: IntKind, a: u64, b: u64) -> Option<u64>
    requires left { a < 2 ^ width kind }
    requires right { b < 2 ^ width kind }
    ensures exact { result ≡ arithmetic kind (value_of kind a *ℤ value_of kind b) }
    ensures below { IfSome result (λ c. c < 2 ^ width kind) }
{
    if kind.is_signed() {
        arithmetic(kind, value(kind, a) * value(kind, b))
    } else {
        Some(product_bits(kind, a, b))
    }
}

fn can_divide(kind: IntKind, x: i128, y: i128) -> bool
    ensures { result ≡ can_divide kind x y }
{
    y != 0 && !(kind.is_signed() && x == kind.least() && y == -1)
}

fn quotient(kind: IntKind, x: i128, y: i128) -> Option<u64>
    requires { InRange kind x }
    ensures exact { result ≡ quotient kind x y }
    ensures below { IfSome result (λ c. c < 2 ^ width kind) }
{
    if can_divide(kind, x, y) {
        Some(repr(kind, x / y))
    } else {
        None
    }
}

fn remainder(kind: IntKind, x: i128, y: i128) -> Option<u64>
    requires { InRange kind x }
    ensures exact { result ≡ remainder kind x y }
    ensures below { IfSome result (λ c. c < 2 ^ width kind) }
{
    if can_divide(kind, x, y) {
        Some(repr(kind, x % y))
    } else {
        None
    }
}

fn can_shift(kind: IntKind, y: i128) -> bool
    ensures { result ≡ can_shift kind y }
{
    0 <= y && y < i128::from(kind.width())
}

fn left_shift(kind: IntKind, x: i128, y: i128) -> Option<u64>
    requires { InRange kind x }
    ensures exact { result ≡ left_shift kind x y }
    ensures below { IfSome result (λ c. c < 2 ^ width kind) }
{
    if can_shift(kind, y) {
        Some(repr(kind, x * (1 << y)))
    } else {
        None
    }
}

fn right_shift(kind: IntKind, x: i128, y: i128) -> Option<u64>
    ensures exact { result ≡ right_shift kind x y }
    ensures below { IfSome result (λ c. c < 2 ^ width kind) }
{
    if can_shift(kind, y) {
        Some(repr(kind, x >> y))
    } else {
        None
    }
}

/// `-a`, which the C standard leaves undefined where it overflows. C promotes the operand first,
/// so its kind has 32 or 64 bits.
#[tactic(auto, unfolding(crate::specs::Operation::negation_of))]
pub fn negate(kind: IntKind, a: u64) -> Option<u64>
    requires wide { 32 ≤ width kind }
    requires bits { a < 2 ^ width kind }
    ensures exact { result ≡ negation_of kind a }
    ensures undefined { IsNone result ↔ Overflows kind (neg_ℤ (value_of kind a)) }
    ensures below { IfSome result (λ c. c < 2 ^ width kind) }
{
    arithmetic(kind, -value(kind, a))
}

/// `a op b` at one kind, which has 32 or 64 bits after C's promotions. `None` is given exactly where
/// the result is undefined: by the C standard for signed overflow of `+`, `-` and `*`, for a zero
/// divisor, for the least value over -1, and for a shift by less than 0 or by the width or more.
/// What the standard leaves open or undefined of the other shifts is as in CompCert's Clight: a left
/// shift is taken modulo 2 to the width, and a right shift rounds down. `Shl` and `Shr` read the
/// amount at the kind too. `And`, `Or` and `Xor` act on the bits, in two's complement.
#[tactic(auto, unfolding(crate::specs::Operation::operation_of))]
pub fn binary(op: IntOp, kind: IntKind, a: u64, b: u64) -> Option<u64>
    requires wide { 32 ≤ width kind }
    requires left { a < 2 ^ width kind }
    requires right { b < 2 ^ width kind }
    ensures exact { result ≡ operation_of op kind a b }
    ensures undefined { IsNone result ↔ IsUndefined op kind (value_of kind a) (value_of kind b) }
    ensures below { IfSome result (λ c. c < 2 ^ width kind) }
    ensures comparison { IsTrue (is_comparison op) → IfSome result (λ c. c < 2) }
{
    let x = value(kind, a);
    let y = value(kind, b);
    match op {
        IntOp::Add => arithmetic(kind, x + y),
        IntOp::Sub => arithmetic(kind, x - y),
        IntOp::Mul => product(kind, a, b),
        IntOp::Div => quotient(kind, x, y),
        IntOp::Rem => remainder(kind, x, y),
        IntOp::And => Some(a & b),
        IntOp::Or => Some(a | b),
        IntOp::Xor => Some(a ^ b),
        IntOp::Shl => left_shift(kind, x, y),
        IntOp::Shr => right_shift(kind, x, y),
        IntOp::Eq => Some(u64::from(x == y)),
        IntOp::Ne => Some(u64::from(x != y)),
        IntOp::Lt => Some(u64::from(x < y)),
        IntOp::Le => Some(u64::from(x <= y)),
        IntOp::Gt => Some(u64::from(x > y)),
        IntOp::Ge => Some(u64::from(x >= y)),
    }
}
