ghost use Rattle.std.specs.Prelude.{◌≡◌, ◌+ℤ◌, ◌-ℤ◌, ◌*ℤ◌, ◌^◌, pos, Some};
ghost use Rattle.floyd_int.specs.Operation.{floor_div};
ghost use Rattle.floyd_fieldpath.specs.Sums.{is_small as is_small_lem, small};
ghost use Rattle.floyd_folding.specs.Folding.{number_of_one, number_of_two};
ghost use Rattle.floyd_tree_values.specs.Numbers.{one_if as one_if_lem, quot as quot_lem, rem as rem_lem, shl as shl_lem, shr as shr_lem, signed as signed_lem, unsigned as unsigned_lem};

use crate::bits::{band, bnot, bor, bxor};
use floyd_int::{IntKind, repr, value};
use floyd_tree::{Head, Operator, Width};

/// Whether a number may be folded into a literal: it is below 2^126 in absolute value.
pub(crate) fn is_small(z: i128) -> bool
    ensures { result ≡ is_small_lem z }
{
    z.unsigned_abs() < 1 << 126
}

/// The number that an operator gives of two numbers, where it is small.
pub(crate) fn operator_number(operator: Operator, x: i128, y: i128) -> Option<i128>
    ensures { result ≡ small (number_of_two operator x y) }
{
    match operator {
        Operator::Add => sum(x, y),
        Operator::Sub => difference(x, y),
        Operator::Mul => product(x, y),
        Operator::Quot => quot(x, y),
        Operator::Rem => rem(x, y),
        Operator::Band => band(x, y),
        Operator::Bor => bor(x, y),
        Operator::Bxor => bxor(x, y),
        Operator::Shl => shl(x, y),
        Operator::Shr => shr(x, y),
        Operator::Eqz => one_if(x == y),
        Operator::Ltz => one_if(x < y),
        Operator::Lez => one_if(x <= y),
        _ => None,
    }
}

/// The number that a head gives of a number, where it is small.
pub(crate) fn head_number(head: &Head, x: i128) -> Option<i128>
    ensures { result ≡ small (number_of_one head.now x) }
{
    match head {
        Head::Signed(width) => signed(*width, x),
        Head::Unsigned(width) => unsigned(*width, x),
        Head::Operator(operator) => operator_number_of_one(*operator, x),
        _ => None,
    }
}

fn operator_number_of_one(operator: Operator, x: i128) -> Option<i128>
    ensures { result ≡ small (number_of_one (Head.Operator operator) x) }
{
    match operator {
        Operator::Bnot => bnot(x),
        _ => None,
    }
}

/// The number, where it is small.
fn small_one(z: i128) -> Option<i128>
    ensures { result ≡ small (Some z) }
{
    if is_small(z) { Some(z) } else { None }
}

fn one_if(test: bool) -> Option<i128>
    ensures { result ≡ small (Some (one_if_lem test)) }
{
    if test { Some(1) } else { Some(0) }
}

#[tactic(auto, using(crate::proofs::SmallLemmas::not_small))]
fn sum(x: i128, y: i128) -> Option<i128>
    ensures { result ≡ small (Some (x +ℤ y)) }
{
    match x.checked_add(y) {
        Some(z) => small_one(z),
        None => None,
    }
}

#[tactic(auto, using(crate::proofs::SmallLemmas::not_small))]
fn difference(x: i128, y: i128) -> Option<i128>
    ensures { result ≡ small (Some (x -ℤ y)) }
{
    match x.checked_sub(y) {
        Some(z) => small_one(z),
        None => None,
    }
}

#[tactic(auto, using(crate::proofs::SmallLemmas::not_small))]
fn product(x: i128, y: i128) -> Option<i128>
    ensures { result ≡ small (Some (x *ℤ y)) }
{
    match x.checked_mul(y) {
        Some(z) => small_one(z),
        None => None,
    }
}

/// Rounded toward zero; 0 where y is 0.
#[tactic(auto, using(crate::proofs::SmallLemmas::not_small))]
fn quot(x: i128, y: i128) -> Option<i128>
    ensures { result ≡ small (Some (quot_lem x y)) }
{
    if y == 0 {
        return Some(0);
    }
    match x.checked_div(y) {
        Some(z) => small_one(z),
        None => None,
    }
}

/// What the rounded quotient leaves; 0 where y is 0.
fn rem(x: i128, y: i128) -> Option<i128>
    ensures { result ≡ small (Some (rem_lem x y)) }
{
    if y == 0 {
        return Some(0);
    }
    small_one(x.wrapping_rem(y))
}

/// x times 2 to the y; 0 where y is negative.
fn shl(x: i128, y: i128) -> Option<i128>
    ensures { result ≡ small (Some (shl_lem x y)) }
{
    if y < 0 {
        return Some(0);
    }
    times_power(x, y.unsigned_abs())
}

/// x times 2 to the n.
#[tactic(auto, using(crate::proofs::ShiftLemmas::far_is_large, crate::proofs::ShiftLemmas::nothing_is_zero))]
fn times_power(x: i128, n: u128) -> Option<i128>
    ensures { result ≡ small (Some (x *ℤ pos (2 ^ n))) }
{
    if n <= 126 {
        return product(x, 1 << n);
    }
    if x.unsigned_abs() == 0 { Some(0) } else { None }
}

/// x divided by 2 to the y, rounded down; 0 where y is negative.
fn shr(x: i128, y: i128) -> Option<i128>
    ensures { result ≡ small (Some (shr_lem x y)) }
{
    if y < 0 {
        return Some(0);
    }
    over_power(x, y.unsigned_abs())
}

/// x divided by 2 to the n, rounded down.
fn over_power(x: i128, n: u128) -> Option<i128>
    ensures { result ≡ small (Some (floor_div x (2 ^ n))) }
{
    if n < 128 {
        return small_one(x >> n);
    }
    if x < 0 { Some(-1) } else { Some(0) }
}

/// Modulo 2 to the width, read in two's complement.
fn signed(width: Width, z: i128) -> Option<i128>
    ensures { result ≡ small (Some (signed_lem width z)) }
{
    let kind = signed_kind(width);
    small_one(value(kind, repr(kind, z)))
}

fn signed_kind(width: Width) -> IntKind
    ensures { result ≡ Rattle.floyd_tree_values.specs.Numbers.signed_kind width }
{
    match width {
        Width::Bits8 => IntKind::I8,
        Width::Bits16 => IntKind::I16,
        Width::Bits32 => IntKind::I32,
        Width::Bits64 => IntKind::I64,
    }
}

/// Modulo 2 to the width.
fn unsigned(width: Width, z: i128) -> Option<i128>
    ensures { result ≡ small (Some (unsigned_lem width z)) }
{
    Some(z.rem_euclid(1 << width.number()))
}
