use floyd_ctypes::CType;
use floyd_int::IntKind;
use floyd_text::Shared;
use sqlite_items::Items;
use std::alloc::Global;
use tests_terms::{Stop, Tree, part};

/// How deep types are written at most.
pub const TYPE_DEPTH: u32 = 8;

/// `void`, the kinds of integers, a struct's tag, `(ptr T)`, `(array T N)` or `(fun T)`, a function without parameters.
#[cycle(ctype)]
pub fn ctype_of(alloc: Global, tree: &Tree, depth: u32) -> Result<CType, Stop> {
    if tree.word().is_empty() {
        return group_of(alloc, tree.parts(), depth);
    }
    match kind_of(tree.word()) {
        Some(kind) => Ok(CType::Int(kind)),
        None if tree.word() == "void" => Ok(CType::Void),
        None => Ok(CType::Struct(tree.name()?)),
    }
}

pub fn kind_of(word: &str) -> Option<IntKind> {
    match word {
        "char" => Some(IntKind::I8),
        "uchar" => Some(IntKind::U8),
        "short" => Some(IntKind::I16),
        "ushort" => Some(IntKind::U16),
        "int" => Some(IntKind::I32),
        "uint" => Some(IntKind::U32),
        "long" => Some(IntKind::I64),
        "ulong" => Some(IntKind::U64),
        _ => None,
    }
}

#[cycle(ctype)]
fn group_of(alloc: Global, trees: &[Tree], depth: u32) -> Result<CType, Stop> {
    if depth == 0 {
        return Err(Stop::Unreadable);
    }
    let inner = Shared::new(alloc, ctype_of(alloc, part(trees, 1)?, depth - 1)?)?;
    match part(trees, 0)?.word() {
        "fun" => Ok(CType::Function(Items::new(alloc), inner)),
        "ptr" => Ok(CType::Pointer(inner)),
        "array" => Ok(CType::Array(inner, u64::from(part(trees, 2)?.count()?))),
        _ => Err(Stop::Unreadable),
    }
}
