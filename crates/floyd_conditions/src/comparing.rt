ghost use Rattle.std.specs.Prelude.{◌≡◌, IfOk, pos};
ghost use Rattle.floyd_fieldpath.specs.Nested.{literal as literal_lem};
ghost use Rattle.floyd_symexpr_rows.specs.Rows.{null as null_lem};
ghost use Rattle.floyd_conditions.specs.Conditions.{less as less_lem, equality as equality_lem, not_zero as not_zero_lem, of_numbers as of_numbers_lem, of_operands as of_operands_lem, of_pointers as of_pointers_lem, swapped as swapped_lem};
ghost use Rattle.floyd_symexpr_pointers.specs.PointerRows.{is_ptr_add as is_ptr_add_lem, offset as offset_lem};
ghost use Rattle.floyd_text.specs.Gives.{RuleGives};

use crate::branches::Branches;
use crate::formulas::{equality, less};
use floyd_fieldpath::literal;
use floyd_int::IntOp;
use floyd_symexpr_rows::{Operand, not_number, null_pointer};
use floyd_text::{RuleStop, Steps};
use floyd_tree::{Head, Operator, Term, head, kids};
use std::alloc::{AllocError, Global};
use std::sync::ledger::Ledger;

/// Where two terms are not equal, and where they are.
#[tactic(auto, using(floyd_symexpr_rows::proofs::SayingLemmas::goes_on, floyd_symexpr_rows::proofs::SayingLemmas::stops))]
fn inequality<L: Ledger>(
    alloc: Global,
    a: &Term,
    b: &Term,
    steps: &mut Steps<L>,
) -> Result<Branches, RuleStop>
    ensures exact { RuleGives (λ x. x) result (swapped_lem (equality_lem a.now b.now)) }
{
    let branches = equality(alloc, a, b, steps)?;
    Ok(branches.exchanged())
}

/// Where a number is not below another, and where it is.
#[tactic(auto, using(floyd_symexpr_rows::proofs::SayingLemmas::goes_on, floyd_symexpr_rows::proofs::SayingLemmas::stops))]
fn not_less<L: Ledger>(
    alloc: Global,
    a: &Term,
    b: &Term,
    steps: &mut Steps<L>,
) -> Result<Branches, RuleStop>
    ensures exact { RuleGives (λ x. x) result (swapped_lem (less_lem a.now b.now)) }
{
    let branches = less(alloc, a, b, steps)?;
    Ok(branches.exchanged())
}

/// The branches of a comparison of two numbers.
fn of_numbers<L: Ledger>(
    alloc: Global,
    op: IntOp,
    a: &Term,
    b: &Term,
    steps: &mut Steps<L>,
) -> Result<Branches, RuleStop>
    ensures exact { RuleGives (λ x. x) result (of_numbers_lem op a.now b.now) }
{
    match op {
        IntOp::Eq => equality(alloc, a, b, steps),
        IntOp::Ne => inequality(alloc, a, b, steps),
        IntOp::Lt => less(alloc, a, b, steps),
        IntOp::Le => not_less(alloc, b, a, steps),
        IntOp::Gt => less(alloc, b, a, steps),
        IntOp::Ge => not_less(alloc, a, b, steps),
        _ => Err(RuleStop::No(not_number())),
    }
}

fn is_ptr_add(head: &Head) -> bool
    ensures { result ≡ is_ptr_add_lem head.now }
{
    match head {
        Head::Operator(operator) => matches!(operator, Operator::PtrAdd),
        _ => false,
    }
}

/// The offset of a pointer that is another one moved, and else 0.
fn offset<L: Ledger>(alloc: Global, v: &Term, steps: &mut Steps<L>) -> Result<Term, AllocError>
    ensures { IfOk result (λ t. t ≡ offset_lem v.now) }
{
    if is_ptr_add(head(v)) {
        if let Some(by) = kids(v).get(1) {
            return by.share();
        }
    }
    literal(alloc, 0, steps)
}

/// The branches of an order of two pointers.
fn of_offsets<L: Ledger>(
    alloc: Global,
    op: IntOp,
    v: &Term,
    w: &Term,
    steps: &mut Steps<L>,
) -> Result<Branches, RuleStop>
    ensures exact { RuleGives (λ x. x) result (of_numbers_lem op (offset_lem v.now) (offset_lem w.now)) }
{
    let a = offset(alloc, v, steps)?;
    let b = offset(alloc, w, steps)?;
    of_numbers(alloc, op, &a, &b, steps)
}

/// The branches of a comparison of two pointers.
fn of_pointers<L: Ledger>(
    alloc: Global,
    op: IntOp,
    v: &Term,
    w: &Term,
    steps: &mut Steps<L>,
) -> Result<Branches, RuleStop>
    ensures exact { RuleGives (λ x. x) result (of_pointers_lem op v.now w.now) }
{
    match op {
        IntOp::Eq => equality(alloc, v, w, steps),
        IntOp::Ne => inequality(alloc, v, w, steps),
        _ => of_offsets(alloc, op, v, w, steps),
    }
}

/// The branches of a comparison.
pub(crate) fn of_operands<L: Ledger>(
    alloc: Global,
    op: IntOp,
    a: &Operand,
    b: &Operand,
    steps: &mut Steps<L>,
) -> Result<Branches, RuleStop>
    ensures exact { RuleGives (λ x. x) result (of_operands_lem op a.now b.now) }
{
    match (a, b) {
        (Operand::OfKind(a), Operand::OfKind(b)) => of_numbers(alloc, op, &a.term, &b.term, steps),
        (Operand::Address(_, v), Operand::Address(_, w)) => of_pointers(alloc, op, v, w, steps),
        (Operand::OfKind(_), Operand::Address(_, _)) => Err(RuleStop::No(not_number())),
        (Operand::Address(_, _), Operand::OfKind(_)) => Err(RuleStop::No(not_number())),
    }
}

fn number_not_zero<L: Ledger>(
    alloc: Global,
    n: &Term,
    steps: &mut Steps<L>,
) -> Result<Branches, RuleStop>
    ensures exact { RuleGives (λ x. x) result (swapped_lem (equality_lem n.now (literal_lem (pos 0)))) }
{
    let zero = literal(alloc, 0, steps)?;
    inequality(alloc, n, &zero, steps)
}

#[tactic(auto, using(floyd_symexpr_rows::proofs::SayingLemmas::goes_on, floyd_symexpr_rows::proofs::SayingLemmas::stops))]
fn not_null<L: Ledger>(alloc: Global, v: &Term, steps: &mut Steps<L>) -> Result<Branches, RuleStop>
    ensures exact { RuleGives (λ x. x) result (swapped_lem (equality_lem v.now null_lem)) }
{
    let null = null_pointer(alloc, steps)?;
    inequality(alloc, v, &null, steps)
}

/// Where an operand is not 0, and where it is.
pub(crate) fn not_zero<L: Ledger>(
    alloc: Global,
    a: &Operand,
    steps: &mut Steps<L>,
) -> Result<Branches, RuleStop>
    ensures exact { RuleGives (λ x. x) result (not_zero_lem a.now) }
{
    match a {
        Operand::OfKind(number) => number_not_zero(alloc, &number.term, steps),
        Operand::Address(_, v) => not_null(alloc, v, steps),
    }
}
