ghost use Rattle.std.specs.Prelude.{◌≡◌, ◌<◌, ◌^◌, IfSome};
ghost use Rattle.floyd_int.specs.Kind.{width};
ghost use Rattle.floyd_text.specs.Gives.{RuleGives};
ghost use Rattle.floyd_clight_machine.specs.Evaluation.{is_zero as is_zero_bits, is_zero_constant as is_zero_constant_lem};
ghost use Rattle.floyd_clight_machine.specs.Integers.{bits_of as bits_of_lem, number_of as number_of_lem, read_as as read_as_lem};
ghost use Rattle.floyd_clight_machine.specs.Types.{is_pointer as is_pointer_lem};
ghost use Rattle.floyd_fieldpath.specs.Nested.{sized_type as sized_type_lem};
ghost use Rattle.floyd_clight.specs.Types.{type_of};
ghost use Rattle.floyd_symexpr.specs.ReadingClauses.{is_add as is_add_lem, is_array as is_array_lem, is_null_cast as is_null_cast_lem};
ghost use Rattle.floyd_symexpr.specs.Expressions.{constant_of as constant_of_lem, kind_of as kind_of_lem, number_constant as number_constant_lem, size_of as size_of_lem, temporary as temporary_lem};

use floyd_assert_trees::Local;
use floyd_clight::Expr;
use floyd_ctypes::{CType, StructTable};
use floyd_fieldpath::{size_term, sized_type};
use floyd_folding::written;
use floyd_int::{IntKind, IntOp, Value, value};
use floyd_symexpr_rows::{constant, not_number};
use floyd_text::{Code, Name, No, RuleStop, Shown, Steps};
use floyd_tree::{Head, Operator, Term};
use std::alloc::Global;
use std::sync::ledger::Ledger;

/// The term of the temporary of that name. One that LOCAL does not have is refused.
pub(crate) fn temporary(locals: &[Local], name: &Name) -> Result<Term, RuleStop>
    ensures exact { RuleGives (λ t. t) result (temporary_lem locals.now name.now) }
{
    'locals: for local in locals {
        if name == &local.name {
            return Ok(local.term.share()?);
        }
    }
    Err(RuleStop::No(No {
        code: Code::UnknownTemp,
        shown: Shown::Name(name.share()?),
    }))
}

/// The kind with which a value of a kind is read.
fn read_as(kind: IntKind) -> IntKind
    ensures { result ≡ read_as_lem kind }
{
    match kind {
        IntKind::I8 => IntKind::I32,
        IntKind::U8 => IntKind::U32,
        IntKind::I16 => IntKind::I32,
        IntKind::U16 => IntKind::U32,
        _ => kind,
    }
}

/// The bits of a value of the kind.
fn bits_of(kind: IntKind, v: Value) -> Option<u64>
    ensures value { result ≡ bits_of_lem kind v }
    ensures below { IfSome result (λ b. b < 2 ^ width (read_as_lem kind)) }
{
    match (kind, v) {
        (IntKind::I64, Value::Vlong(b)) => Some(b),
        (IntKind::U64, Value::Vlong(b)) => Some(b),
        (IntKind::I64, _) => None,
        (IntKind::U64, _) => None,
        (_, Value::Vint(b)) => Some(u64::from(b)),
        _ => None,
    }
}

/// The whole number that a value of the kind stands for.
fn number_of(kind: IntKind, v: Value) -> Option<i128>
    ensures { result ≡ number_of_lem kind v }
{
    match bits_of(kind, v) {
        Some(bits) => Some(value(read_as(kind), bits)),
        None => None,
    }
}

/// The term of a constant.
pub(crate) fn constant_of<L: Ledger>(
    alloc: Global,
    t: &CType,
    v: Value,
    steps: &mut Steps<L>,
) -> Result<Term, RuleStop>
    ensures exact { RuleGives (λ t. t) result (constant_of_lem t.now v) }
{
    match t {
        CType::Int(kind) => match number_of(*kind, v) {
            Some(z) => constant(alloc, *kind, z, steps),
            None => Err(RuleStop::No(not_number())),
        },
        _ => Err(RuleStop::No(not_number())),
    }
}

/// Whether the expression is the constant 0.
fn is_zero_constant(e: &Expr) -> bool
    ensures { result ≡ is_zero_constant_lem e.now }
{
    match e {
        Expr::Const(v, CType::Int(kind)) => match bits_of(*kind, *v) {
            Some(bits) => bits == 0,
            None => false,
        },
        _ => false,
    }
}

fn is_pointer(t: &CType) -> bool
    ensures { result ≡ is_pointer_lem t.now }
{
    match t {
        CType::Pointer(_) => true,
        _ => false,
    }
}

/// Whether the expression is a pointer.
pub(crate) fn has_pointer_type(e: &Expr) -> bool
    ensures { result ≡ is_pointer_lem (type_of e.now) }
{
    is_pointer(e.ctype())
}

/// Whether the constant 0 is cast to a pointer.
pub(crate) fn is_null_cast(t: &CType, e: &Expr) -> bool
    ensures { result ≡ is_null_cast_lem t.now e.now }
{
    is_pointer(t) && is_zero_constant(e)
}

/// Whether the expression stands for an array.
pub(crate) fn has_array_type(e: &Expr) -> bool
    ensures { result ≡ is_array_lem (type_of e.now) }
{
    match e.ctype() {
        CType::Array(_, _) => true,
        _ => false,
    }
}

/// The kind of an expression that is a number.
pub(crate) fn kind_of(e: &Expr) -> Option<IntKind>
    ensures { result ≡ kind_of_lem (type_of e.now) }
{
    match e.ctype() {
        CType::Int(kind) => Some(*kind),
        _ => None,
    }
}

pub(crate) fn is_add(op: IntOp) -> bool
    ensures { result ≡ is_add_lem op }
{
    matches!(op, IntOp::Add)
}

/// The size of a type, as a value.
pub(crate) fn size_of<L: Ledger>(
    alloc: Global,
    structs: &StructTable,
    of: &CType,
    steps: &mut Steps<L>,
) -> Result<Term, RuleStop>
    ensures exact { RuleGives (λ t. t) result (size_of_lem structs.now (sized_type_lem of.now)) }
{
    let t = sized_type(alloc, of, steps)?;
    let shape = t.shape().get();
    let n = size_term(alloc, structs, shape, t.sizes().as_slice(), steps)?;
    let kids = [n];
    written(alloc, Head::Operator(Operator::Vlong), &kids, steps)
}
