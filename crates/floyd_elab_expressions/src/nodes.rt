ghost use Rattle.std.specs.Prelude.{◌≡◌, IfOk};
ghost use Rattle.floyd_elab_expressions.specs.Clight.{deref_of as deref_of_lem, address_of as address_of_lem, unary_of as unary_of_lem, binary_of as binary_of_lem, cast_of as cast_of_lem, field_of as field_of_lem, bits_of as bits_of_lem, zero as zero_lem, one as one_lem, is_memory as is_memory_lem};

use floyd_clight::{Expr, UnaryOp};
use floyd_ctypes::CType;
use floyd_int::{IntKind, IntOp, Value};
use floyd_text::{Name, Shared};
use std::alloc::{AllocError, Global};

pub(crate) fn deref_of(alloc: Global, e: Expr, t: CType) -> Result<Expr, AllocError>
    ensures { IfOk result (λ made. made ≡ deref_of_lem e t) }
{
    Ok(Expr::Deref(Shared::new(alloc, e)?, t))
}

pub(crate) fn address_of(alloc: Global, e: Expr, t: CType) -> Result<Expr, AllocError>
    ensures { IfOk result (λ made. made ≡ address_of_lem e t) }
{
    Ok(Expr::AddrOf(Shared::new(alloc, e)?, t))
}

pub(crate) fn unary_of(alloc: Global, op: UnaryOp, e: Expr, t: CType) -> Result<Expr, AllocError>
    ensures { IfOk result (λ made. made ≡ unary_of_lem op e t) }
{
    Ok(Expr::Unary(op, Shared::new(alloc, e)?, t))
}

pub(crate) fn binary_of(
    alloc: Global,
    op: IntOp,
    a: Expr,
    b: Expr,
    t: CType,
) -> Result<Expr, AllocError>
    ensures { IfOk result (λ made. made ≡ binary_of_lem op a b t) }
{
    let a = Shared::new(alloc, a)?;
    Ok(Expr::Binary(op, a, Shared::new(alloc, b)?, t))
}

pub(crate) fn cast_of(alloc: Global, e: Expr, t: CType) -> Result<Expr, AllocError>
    ensures { IfOk result (λ made. made ≡ cast_of_lem e t) }
{
    Ok(Expr::Cast(Shared::new(alloc, e)?, t))
}

pub(crate) fn field_of(alloc: Global, e: Expr, name: Name, t: CType) -> Result<Expr, AllocError>
    ensures { IfOk result (λ made. made ≡ field_of_lem e name t) }
{
    Ok(Expr::Field(Shared::new(alloc, e)?, name, t))
}

/// A number of a promoted kind.
pub(crate) fn bits_of(kind: IntKind, n: u64) -> Value
    ensures { result ≡ bits_of_lem kind n }
{
    match kind {
        IntKind::I8 | IntKind::U8 | IntKind::I16 | IntKind::U16 | IntKind::I32 | IntKind::U32 =>
            Value::Vint((n % 4294967296) as u32),
        IntKind::I64 | IntKind::U64 => Value::Vlong(n),
    }
}

/// The 0 of type int.
pub(crate) fn zero() -> Expr
    ensures { result ≡ zero_lem }
{
    Expr::Const(Value::Vint(0), CType::Int(IntKind::I32))
}

/// The 1 of type int.
pub fn one() -> Expr
    ensures { result ≡ one_lem }
{
    Expr::Const(Value::Vint(1), CType::Int(IntKind::I32))
}

/// Whether it stands for a place in memory.
pub(crate) fn is_memory(e: &Expr) -> bool
    ensures { result ≡ is_memory_lem e.now }
{
    match e {
        Expr::Var(_, _, _) | Expr::Deref(_, _) | Expr::Field(_, _, _) => true,
        Expr::Const(_, _)
        | Expr::Temp(_, _)
        | Expr::AddrOf(_, _)
        | Expr::Unary(_, _, _)
        | Expr::Binary(_, _, _, _)
        | Expr::Cast(_, _)
        | Expr::SizeOf(_, _) => false,
    }
}
