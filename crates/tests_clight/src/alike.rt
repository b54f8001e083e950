use floyd_clight::{Case, Stmt};
use tests_terms::DEPTH;

#[cycle(statement)]
fn same_cases(a: &[Case], b: &[Case], depth: u32) -> bool {
    if a.len() != b.len() {
        return false;
    }
    'cases: for (x, y) in a.iter().zip(b) {
        if x.label != y.label || !same_at(x.body.get(), y.body.get(), depth) {
            return false;
        }
    }
    true
}

#[cycle(statement)]
fn same_statements(a: &[Stmt], b: &[Stmt], depth: u32) -> bool {
    if a.len() != b.len() {
        return false;
    }
    'statements: for (x, y) in a.iter().zip(b) {
        if !same_at(x, y, depth) {
            return false;
        }
    }
    true
}

#[cycle(statement)]
fn same_at(a: &Stmt, b: &Stmt, depth: u32) -> bool {
    if depth == 0 {
        return false;
    }
    match (a, b) {
        (Stmt::Skip, Stmt::Skip) => true,
        (Stmt::Set(x, _), Stmt::Set(y, _)) => *x == *y,
        (Stmt::Assign(_, _), Stmt::Assign(_, _)) => true,
        (Stmt::Call(_, _, _), Stmt::Call(_, _, _)) => true,
        (Stmt::Seq(a), Stmt::Seq(b)) => same_statements(a.as_slice(), b.as_slice(), depth - 1),
        (Stmt::If(_, a, c), Stmt::If(_, b, d)) => {
            same_at(a.get(), b.get(), depth - 1) && same_at(c.get(), d.get(), depth - 1)
        }
        (Stmt::Loop(a, c), Stmt::Loop(b, d)) => {
            same_at(a.get(), b.get(), depth - 1) && same_at(c.get(), d.get(), depth - 1)
        }
        (Stmt::Break, Stmt::Break) => true,
        (Stmt::Continue, Stmt::Continue) => true,
        (Stmt::Return(a), Stmt::Return(b)) => a.is_some() == b.is_some(),
        (Stmt::Switch(_, a), Stmt::Switch(_, b)) => {
            same_cases(a.as_slice(), b.as_slice(), depth - 1)
        }
        _ => false,
    }
}

/// Whether the statements are the same, up to the expressions in them, and no deeper than rows are.
pub fn same_statement(a: &Stmt, b: &Stmt) -> bool {
    same_at(a, b, DEPTH)
}
