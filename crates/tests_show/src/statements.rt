//! Statements from the rows of the table.
use floyd_clight::{Expr, Stmt, StmtList};
use floyd_ctypes::CType;
use floyd_int::Value;
use floyd_text::Shared;
use sqlite_items::Items;
use std::alloc::{AllocError, Global};
use tests_terms::{Stop, Tree, part};

/// An expression, which no text shows.
fn zero() -> Expr {
    Expr::Const(Value::Vint(0), CType::Void)
}

fn skip(alloc: Global) -> Result<Shared<Stmt>, AllocError> {
    Shared::new(alloc, Stmt::Skip)
}

/// The statement of that word.
fn simple(alloc: Global, word: &str) -> Result<Stmt, Stop> {
    match word {
        "skip" => Ok(Stmt::Skip),
        "store" => Ok(Stmt::Assign(zero(), zero())),
        "call" => Ok(Stmt::Call(None, zero(), Items::new(alloc))),
        "if" => Ok(Stmt::If(zero(), skip(alloc)?, skip(alloc)?)),
        "loop" => Ok(Stmt::Loop(skip(alloc)?, skip(alloc)?)),
        "switch" => Ok(Stmt::Switch(zero(), Items::new(alloc))),
        "break" => Ok(Stmt::Break),
        "continue" => Ok(Stmt::Continue),
        "return" => Ok(Stmt::Return(None)),
        _ => Err(Stop::Unreadable),
    }
}

/// The statement of each word.
fn all_simple(alloc: Global, trees: &[Tree]) -> Result<StmtList, Stop> {
    let mut all = Items::new(alloc);
    'trees: for tree in trees {
        all.push(simple(alloc, tree.word())?)?;
    }
    Ok(all)
}

/// A word, `(set NAME)`, or `(seq WORD ..)`.
fn statement_of(alloc: Global, tree: &Tree) -> Result<Stmt, Stop> {
    let parts = tree.parts();
    if parts.is_empty() {
        return simple(alloc, tree.word());
    }
    match part(parts, 0)?.word() {
        "set" => Ok(Stmt::Set(part(parts, 1)?.name()?, zero())),
        "seq" => Ok(Stmt::Seq(all_simple(alloc, parts.get(1..).unwrap_or(&[]))?)),
        _ => Err(Stop::Unreadable),
    }
}

/// The statement of each tree.
pub fn statements_of(alloc: Global, trees: &[Tree]) -> Result<StmtList, Stop> {
    let mut all = Items::new(alloc);
    'trees: for tree in trees {
        all.push(statement_of(alloc, tree)?)?;
    }
    Ok(all)
}
