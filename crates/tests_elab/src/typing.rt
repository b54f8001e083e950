//! Expressions and their types among some names.
use crate::printing::print_type;
use crate::rows::read;
use floyd_cparse_trees::{BlockItem, CExpr, CStatement, CUnit, External};
use floyd_ctypes::CType;
use floyd_ctyping::{Env, type_of};
use floyd_elab_names::{Meaning, Storage};
use floyd_int::IntKind;
use floyd_text::{Halt, Name, Shared};
use std::alloc::{AllocError, Global};

fn declare(alloc: Global, env: &mut Env, name: &str, ctype: CType) -> Result<(), AllocError> {
    let name = Name::from_slice(alloc, name.as_bytes())?;
    let meaning = Meaning::Variable {
        called: name.share()?,
        ctype,
        storage: Storage::Temporary,
    };
    env.declare(alloc, &name, meaning)
}

/// Numbers of some kinds, two pointers and an array.
fn names(alloc: Global) -> Result<Env, AllocError> {
    let mut env = Env::new(alloc)?;
    declare(alloc, &mut env, "c", CType::Int(IntKind::I8))?;
    declare(alloc, &mut env, "s", CType::Int(IntKind::I16))?;
    declare(alloc, &mut env, "i", CType::Int(IntKind::I32))?;
    declare(alloc, &mut env, "u", CType::Int(IntKind::U32))?;
    declare(alloc, &mut env, "l", CType::Int(IntKind::I64))?;
    declare(alloc, &mut env, "w", CType::Int(IntKind::U64))?;
    let int = Shared::new(alloc, CType::Int(IntKind::I32))?;
    declare(alloc, &mut env, "p", CType::Pointer(int.share()?))?;
    declare(alloc, &mut env, "a", CType::Array(int, 3))?;
    let void = Shared::new(alloc, CType::Void)?;
    declare(alloc, &mut env, "q", CType::Pointer(void))?;
    Ok(env)
}

/// What the function of a unit returns.
fn return_of(unit: &CUnit) -> Option<&CExpr> {
    match unit.externals.as_slice() {
        [External::Function(f)] => match f.body.as_slice() {
            [BlockItem::Statement(CStatement::Return { value: Some(e), .. })] => Some(e),
            _ => None,
        },
        _ => None,
    }
}

/// Shows the type of what is returned.
pub(crate) fn type_in(alloc: Global, bytes: &[u8], text: &mut String) -> Result<(), Halt> {
    let unit = read(alloc, bytes)?;
    let env = names(alloc)?;
    match return_of(&unit) {
        Some(e) => {
            let t = type_of(alloc, &env, 1, e)?;
            Ok(print_type(text, &t)?)
        }
        None => Err(Halt::Memory),
    }
}
