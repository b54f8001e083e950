//! The `main` that a unit is.
ghost use Rattle.std.specs.Prelude.{◌≡◌, IfOk};
ghost use Rattle.std.specs.List.{list_any, list_all};
ghost use Rattle.floyd_clight.specs.declared.unit.Local as spec_local;
ghost use Rattle.floyd_check_stub.specs.MainForm as spec;

use floyd_clight::{ClightUnit, Declared, Defined, Expr, Local, Stmt, StmtList, flat};
use floyd_ctypes::CType;
use floyd_int::{IntKind, Value};
use floyd_text::Name;
use std::alloc::{AllocError, Global};

fn is_int(t: &CType) -> bool
    ensures { result ≡ spec.is_int t.now }
{
    matches!(t, CType::Int(IntKind::I32))
}

fn is_constant(e: &Expr) -> bool
    ensures { result ≡ spec.is_constant e.now }
{
    match e {
        Expr::Const(Value::Vint(_), t) => is_int(t),
        _ => false,
    }
}

fn sets_constant(s: &Stmt) -> bool
    ensures { result ≡ spec.sets_constant s.now }
{
    match s {
        Stmt::Set(_, e) => is_constant(e),
        _ => false,
    }
}

fn sets(x: &Name, s: &Stmt) -> bool
    ensures { result ≡ spec.sets x.now s.now }
{
    match s {
        Stmt::Set(y, _) => y.as_slice() == x.as_slice(),
        _ => false,
    }
}

/// Whether one of the statements sets that temporary.
fn is_set(x: &Name, statements: &[Stmt]) -> bool
    ensures { result ≡ list_any (spec.sets x.now) statements.now }
{
    statements.iter().any(|s| sets(x, s))
}

fn returns_set(statements: &[Stmt], s: &Stmt) -> bool
    ensures { result ≡ spec.returns_set statements.now s.now }
{
    match s {
        Stmt::Return(Some(Expr::Temp(x, t))) => is_int(t) && is_set(x, statements),
        _ => false,
    }
}

fn all_set_constants(statements: &[Stmt]) -> bool
    ensures { result ≡ list_all spec.sets_constant statements.now }
{
    statements.iter().all(|s| sets_constant(s))
}

fn sets_and_returns(statements: &[Stmt]) -> bool
    ensures { result ≡ spec.sets_and_returns statements.now }
{
    match statements.split_last() {
        Some((last, front)) => all_set_constants(front) && returns_set(statements, last),
        None => false,
    }
}

fn are_ints(temporaries: &[Local]) -> bool
    ensures { result ≡ list_all (λ (t : spec_local.Local). spec.is_int t.ctype) temporaries.now }
{
    temporaries.iter().all(|t| is_int(&t.ctype))
}

fn is_int_main(f: &Defined) -> bool
    ensures { result ≡ spec.is_int_main f.now }
{
    f.name.as_slice() == b"main".as_slice()
        && is_int(&f.result)
        && f.parameters.len() == 0
        && f.blocks.len() == 0
        && are_ints(f.temporaries.as_slice())
}

fn main_of(alloc: Global, f: &Defined) -> Result<Option<StmtList>, AllocError>
    ensures { IfOk result (λ m. m ≡ spec.main_of f.now) }
{
    if !is_int_main(f) {
        return Ok(None);
    }
    let statements = flat(alloc, &f.body)?;
    if sets_and_returns(statements.as_slice()) {
        Ok(Some(statements))
    } else {
        Ok(None)
    }
}

fn declares_main(declared: &[Declared]) -> bool
    ensures { result ≡ spec.declares_main declared.now }
{
    match declared {
        [f] => f.name.as_slice() == b"main".as_slice(),
        _ => false,
    }
}

fn only_main(alloc: Global, defined: &[Defined]) -> Result<Option<StmtList>, AllocError>
    ensures { IfOk result (λ m. m ≡ spec.only_main defined.now) }
{
    match defined {
        [f] => main_of(alloc, f),
        _ => Ok(None),
    }
}

/// The statements of `main`, where a unit is no more than a `main` that sets int temporaries to int constants and then
/// returns one that it set, and none where it is more: a unit with a struct, a variable or another function, a `main`
/// with a parameter, a block, a temporary of another type or another statement. They are in order, without sequences
/// and skips.
pub fn main_in(alloc: Global, unit: &ClightUnit) -> Result<Option<StmtList>, AllocError>
    ensures { IfOk result (λ m. m ≡ spec.main_in unit.now) }
{
    if unit.structs.len() > 0
        || unit.variables.len() > 0
        || !declares_main(unit.declared.as_slice())
    {
        return Ok(None);
    }
    only_main(alloc, unit.defined.as_slice())
}
