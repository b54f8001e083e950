use crate::expressions::expression_of;
use floyd_clight::{Case, CaseList, Stmt, StmtList};
use floyd_text::Shared;
use sqlite_items::Items;
use std::alloc::Global;
use tests_terms::{DEPTH, Stop, Tree, part};

/// A statement of one word.
fn word_of(word: &str) -> Result<Stmt, Stop> {
    match word {
        "skip" => Ok(Stmt::Skip),
        "break" => Ok(Stmt::Break),
        "continue" => Ok(Stmt::Continue),
        "return" => Ok(Stmt::Return(None)),
        _ => Err(Stop::Unreadable),
    }
}

/// A statement of one word, of expressions alone.
fn simple_of(alloc: Global, word: &str, own: &[Tree]) -> Result<Stmt, Stop> {
    match word {
        "set" => {
            let e = expression_of(alloc, part(own, 1)?, DEPTH)?;
            Ok(Stmt::Set(part(own, 0)?.name()?, e))
        }
        "store" => {
            let place = expression_of(alloc, part(own, 0)?, DEPTH)?;
            Ok(Stmt::Assign(place, expression_of(alloc, part(own, 1)?, DEPTH)?))
        }
        "call" => {
            let callee = expression_of(alloc, part(own, 0)?, DEPTH)?;
            Ok(Stmt::Call(None, callee, Items::new(alloc)))
        }
        "return" => Ok(Stmt::Return(Some(expression_of(alloc, part(own, 0)?, DEPTH)?))),
        _ => Err(Stop::Unreadable),
    }
}

#[cycle(statement)]
fn shared_of(alloc: Global, tree: &Tree, depth: u32) -> Result<Shared<Stmt>, Stop> {
    Ok(Shared::new(alloc, statement_of(alloc, tree, depth)?)?)
}

/// `skip`, `break`, `continue`, `return`, `(return E)`, `(set x E)`, `(store PLACE E)`, `(call E)`, `(seq S ..)`, `(if E S S)`,
/// `(loop S S)` or `(switch E CASE ..)`.
#[cycle(statement)]
fn statement_of(alloc: Global, tree: &Tree, depth: u32) -> Result<Stmt, Stop> {
    if depth == 0 {
        return Err(Stop::Unreadable);
    }
    let parts = tree.parts();
    if parts.is_empty() {
        return word_of(tree.word());
    }
    let own = parts.get(1..).unwrap_or(&[]);
    match part(parts, 0)?.word() {
        "seq" => Ok(Stmt::Seq(all_of(alloc, own, depth - 1)?)),
        "if" => {
            let met = shared_of(alloc, part(own, 1)?, depth - 1)?;
            let unmet = shared_of(alloc, part(own, 2)?, depth - 1)?;
            Ok(Stmt::If(expression_of(alloc, part(own, 0)?, DEPTH)?, met, unmet))
        }
        "loop" => {
            let first = shared_of(alloc, part(own, 0)?, depth - 1)?;
            Ok(Stmt::Loop(first, shared_of(alloc, part(own, 1)?, depth - 1)?))
        }
        "switch" => {
            let cases = cases_of(alloc, own.get(1..).unwrap_or(&[]), depth - 1)?;
            Ok(Stmt::Switch(expression_of(alloc, part(own, 0)?, DEPTH)?, cases))
        }
        word => simple_of(alloc, word, own),
    }
}

#[cycle(statement)]
fn all_of(alloc: Global, trees: &[Tree], depth: u32) -> Result<StmtList, Stop> {
    let mut all = Items::new(alloc);
    'trees: for tree in trees {
        all.push(statement_of(alloc, tree, depth)?)?;
    }
    Ok(all)
}

/// `default`, or the bits of a label.
fn label_of(tree: &Tree) -> Result<Option<u64>, Stop> {
    if tree.word() == "default" {
        return Ok(None);
    }
    match u64::try_from(tree.number()?) {
        Ok(bits) => Ok(Some(bits)),
        Err(_) => Err(Stop::Unreadable),
    }
}

/// `(LABEL S)` for each.
#[cycle(statement)]
fn cases_of(alloc: Global, trees: &[Tree], depth: u32) -> Result<CaseList, Stop> {
    let mut all = Items::new(alloc);
    'trees: for tree in trees {
        let body = shared_of(alloc, part(tree.parts(), 1)?, depth)?;
        let label = label_of(part(tree.parts(), 0)?)?;
        all.push(Case { label, body })?;
    }
    Ok(all)
}

/// The statement of each tree.
pub fn statements_of(alloc: Global, trees: &[Tree]) -> Result<StmtList, Stop> {
    all_of(alloc, trees, DEPTH)
}
