ghost use Rattle.std.specs.Prelude.{◌≡◌, Some};
ghost use Rattle.floyd_text.specs.Gives.{RuleGives};
ghost use Rattle.floyd_symexpr_pointers.specs.Operators.{address_of as address_of_lem, binary as binary_lem, cast as cast_lem, cast_to_kind as cast_to_kind_lem, cast_to_pointer as cast_to_pointer_lem, on_address as on_address_lem, on_addresses as on_addresses_lem, on_number as on_number_lem, on_numbers as on_numbers_lem, on_one_kind as on_one_kind_lem, operand as operand_lem, same_kind as same_kind_lem, unary as unary_lem, way_first as way_first_lem, way_second as way_second_lem};

use crate::pointers::{pointer_equality, pointer_moved, pointer_order, way};
use floyd_clight::UnaryOp;
use floyd_ctypes::CType;
use floyd_int::{IntKind, IntOp};
use floyd_symexpr_rows::{
    Needs, Number, Objects, Operand, arithmetic, bitwise, comparison, complement, division,
    is_zero, negation, not_number, null_pointer, number, number_cast, pointer_cast, shift,
};
use floyd_text::{RuleStop, Steps};
use floyd_tree::{Operator, Term};
use std::alloc::Global;
use std::sync::ledger::Ledger;

/// An operand of this type with this term. A number that is not `Vint` or `Vlong` of its width is refused, and so is
/// what is neither a number nor an address.
pub fn operand(alloc: Global, t: &CType, v: &Term) -> Result<Operand, RuleStop>
    ensures exact { RuleGives (λ x. x) result (operand_lem t.now v.now) }
{
    match t {
        CType::Int(kind) => Ok(Operand::OfKind(number(*kind, v)?)),
        CType::Pointer(to) => address(alloc, to.get(), v),
        CType::Array(element, _) => address(alloc, element.get(), v),
        CType::Function(_, _) => address(alloc, t, v),
        CType::Void => Err(RuleStop::No(not_number())),
        CType::Struct(_) => Err(RuleStop::No(not_number())),
    }
}

fn address(alloc: Global, to: &CType, v: &Term) -> Result<Operand, RuleStop>
    ensures exact { RuleGives (λ x. x) result (address_of_lem (Some to.now) v.now) }
{
    Ok(Operand::Address(to.share(alloc)?, v.share()?))
}

fn same_kind(j: IntKind, k: IntKind) -> bool
    ensures { result ≡ same_kind_lem j k }
{
    j.width() == k.width() && j.is_signed() == k.is_signed()
}

/// An operator on numbers of one kind.
fn on_one_kind<L: Ledger>(
    alloc: Global,
    op: IntOp,
    a: &Number,
    b: &Number,
    needs: &mut Needs,
    steps: &mut Steps<L>,
) -> Result<Term, RuleStop>
    ensures exact { RuleGives (λ t. (t, needs.new)) result (on_one_kind_lem op a.now b.now needs.old) }
{
    match op {
        IntOp::Add => arithmetic(alloc, Operator::Add, a, b, needs, steps),
        IntOp::Sub => arithmetic(alloc, Operator::Sub, a, b, needs, steps),
        IntOp::Mul => arithmetic(alloc, Operator::Mul, a, b, needs, steps),
        IntOp::Div => division(alloc, Operator::Quot, a, b, needs, steps),
        IntOp::Rem => division(alloc, Operator::Rem, a, b, needs, steps),
        IntOp::And => bitwise(alloc, Operator::Band, a, b, needs, steps),
        IntOp::Or => bitwise(alloc, Operator::Bor, a, b, needs, steps),
        IntOp::Xor => bitwise(alloc, Operator::Bxor, a, b, needs, steps),
        _ => comparison(alloc, op, a, b, needs, steps),
    }
}

/// An operator on numbers.
fn on_numbers<L: Ledger>(
    alloc: Global,
    op: IntOp,
    a: &Number,
    b: &Number,
    needs: &mut Needs,
    steps: &mut Steps<L>,
) -> Result<Term, RuleStop>
    ensures exact { RuleGives (λ t. (t, needs.new)) result (on_numbers_lem op a.now b.now needs.old) }
{
    match op {
        IntOp::Shl => shift(alloc, Operator::Shl, a, b, needs, steps),
        IntOp::Shr => shift(alloc, Operator::Shr, a, b, needs, steps),
        _ => {
            if same_kind(a.kind, b.kind) {
                on_one_kind(alloc, op, a, b, needs, steps)
            } else {
                Err(RuleStop::No(not_number()))
            }
        }
    }
}

/// An operator on addresses.
fn on_addresses<L: Ledger>(
    objects: &Objects<'_>,
    op: IntOp,
    v: &Term,
    w: &Term,
    needs: &mut Needs,
    steps: &mut Steps<L>,
) -> Result<Term, RuleStop>
    ensures exact { RuleGives (λ t. (t, needs.new)) result (on_addresses_lem objects.now.structs.now objects.now.parts.now op v.now w.now needs.old) }
{
    match op {
        IntOp::Eq => pointer_equality(objects.alloc, false, v, w, needs, steps),
        IntOp::Ne => pointer_equality(objects.alloc, true, v, w, needs, steps),
        _ => pointer_order(objects, op, v, w, needs, steps),
    }
}

/// The number of bytes by which a pointer before a number is moved.
fn way_first<L: Ledger>(
    objects: &Objects<'_>,
    op: IntOp,
    element: &CType,
    i: &Term,
    steps: &mut Steps<L>,
) -> Result<Term, RuleStop>
    ensures exact { RuleGives (λ t. t) result (way_first_lem objects.now.structs.now op element.now i.now) }
{
    match op {
        IntOp::Add => way(objects, false, element, i, steps),
        IntOp::Sub => way(objects, true, element, i, steps),
        _ => Err(RuleStop::No(not_number())),
    }
}

/// The same of a pointer behind a number, which may only be added.
fn way_second<L: Ledger>(
    objects: &Objects<'_>,
    op: IntOp,
    element: &CType,
    i: &Term,
    steps: &mut Steps<L>,
) -> Result<Term, RuleStop>
    ensures exact { RuleGives (λ t. t) result (way_second_lem objects.now.structs.now op element.now i.now) }
{
    match op {
        IntOp::Add => way(objects, false, element, i, steps),
        _ => Err(RuleStop::No(not_number())),
    }
}

/// A binary operator on its operands.
#[tactic(auto, using(floyd_symexpr_rows::proofs::SayingLemmas::goes_on, floyd_symexpr_rows::proofs::SayingLemmas::stops))]
pub fn binary<L: Ledger>(
    objects: &Objects<'_>,
    op: IntOp,
    a: &Operand,
    b: &Operand,
    needs: &mut Needs,
    steps: &mut Steps<L>,
) -> Result<Term, RuleStop>
    ensures exact { RuleGives (λ t. (t, needs.new)) result (binary_lem objects.now.structs.now objects.now.parts.now op a.now b.now needs.old) }
{
    match (a, b) {
        (Operand::OfKind(a), Operand::OfKind(b)) => {
            on_numbers(objects.alloc, op, a, b, needs, steps)
        }
        (Operand::OfKind(i), Operand::Address(t, p)) => {
            let by = way_second(objects, op, t, &i.term, steps)?;
            pointer_moved(objects.alloc, p, &by, i, needs, steps)
        }
        (Operand::Address(t, p), Operand::OfKind(i)) => {
            let by = way_first(objects, op, t, &i.term, steps)?;
            pointer_moved(objects.alloc, p, &by, i, needs, steps)
        }
        (Operand::Address(_, v), Operand::Address(_, w)) => {
            on_addresses(objects, op, v, w, needs, steps)
        }
    }
}

fn on_number<L: Ledger>(
    alloc: Global,
    op: UnaryOp,
    a: &Number,
    needs: &mut Needs,
    steps: &mut Steps<L>,
) -> Result<Term, RuleStop>
    ensures exact { RuleGives (λ t. (t, needs.new)) result (on_number_lem op a.now needs.old) }
{
    match op {
        UnaryOp::Neg => negation(alloc, a, needs, steps),
        UnaryOp::Complement => complement(alloc, a, needs, steps),
        UnaryOp::Not => is_zero(alloc, a, needs, steps),
    }
}

/// `!p` is `p == 0`.
#[tactic(auto, using(floyd_symexpr_rows::proofs::SayingLemmas::goes_on, floyd_symexpr_rows::proofs::SayingLemmas::stops))]
fn on_address<L: Ledger>(
    alloc: Global,
    op: UnaryOp,
    v: &Term,
    needs: &mut Needs,
    steps: &mut Steps<L>,
) -> Result<Term, RuleStop>
    ensures exact { RuleGives (λ t. (t, needs.new)) result (on_address_lem op v.now needs.old) }
{
    match op {
        UnaryOp::Not => {
            let null = null_pointer(alloc, steps)?;
            pointer_equality(alloc, false, v, &null, needs, steps)
        }
        UnaryOp::Neg => Err(RuleStop::No(not_number())),
        UnaryOp::Complement => Err(RuleStop::No(not_number())),
    }
}

/// A unary operator on its operand.
pub fn unary<L: Ledger>(
    alloc: Global,
    op: UnaryOp,
    a: &Operand,
    needs: &mut Needs,
    steps: &mut Steps<L>,
) -> Result<Term, RuleStop>
    ensures exact { RuleGives (λ t. (t, needs.new)) result (unary_lem op a.now needs.old) }
{
    match a {
        Operand::OfKind(a) => on_number(alloc, op, a, needs, steps),
        Operand::Address(_, v) => on_address(alloc, op, v, needs, steps),
    }
}

fn cast_to_kind<L: Ledger>(
    alloc: Global,
    to: &CType,
    a: &Number,
    needs: &mut Needs,
    steps: &mut Steps<L>,
) -> Result<Term, RuleStop>
    ensures exact { RuleGives (λ t. (t, needs.new)) result (cast_to_kind_lem to.now a.now needs.old) }
{
    match to {
        CType::Int(kind) => number_cast(alloc, *kind, a, needs, steps),
        _ => Err(RuleStop::No(not_number())),
    }
}

fn cast_to_pointer<L: Ledger>(
    alloc: Global,
    to: &CType,
    v: &Term,
    needs: &mut Needs,
    steps: &mut Steps<L>,
) -> Result<Term, RuleStop>
    ensures exact { RuleGives (λ t. (t, needs.new)) result (cast_to_pointer_lem to.now v.now needs.old) }
{
    match to {
        CType::Pointer(_) => pointer_cast(alloc, to, v, needs, steps),
        _ => Err(RuleStop::No(not_number())),
    }
}

/// A cast of an operand to a type.
pub fn cast<L: Ledger>(
    alloc: Global,
    to: &CType,
    a: &Operand,
    needs: &mut Needs,
    steps: &mut Steps<L>,
) -> Result<Term, RuleStop>
    ensures exact { RuleGives (λ t. (t, needs.new)) result (cast_lem to.now a.now needs.old) }
{
    match a {
        Operand::OfKind(a) => cast_to_kind(alloc, to, a, needs, steps),
        Operand::Address(_, v) => cast_to_pointer(alloc, to, v, needs, steps),
    }
}
