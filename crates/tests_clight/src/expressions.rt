use crate::types::{TYPE_DEPTH, ctype_of, kind_of};
use floyd_clight::{Binding, Expr, UnaryOp};
use floyd_int::{IntOp, Value, repr};
use floyd_text::Shared;
use std::alloc::Global;
use tests_terms::{Stop, Tree, part};

fn operator_of(word: &str) -> Option<IntOp> {
    match word {
        "+" => Some(IntOp::Add),
        "-" => Some(IntOp::Sub),
        "*" => Some(IntOp::Mul),
        "/" => Some(IntOp::Div),
        "%" => Some(IntOp::Rem),
        "&" => Some(IntOp::And),
        "|" => Some(IntOp::Or),
        "^" => Some(IntOp::Xor),
        "<<" => Some(IntOp::Shl),
        ">>" => Some(IntOp::Shr),
        "==" => Some(IntOp::Eq),
        "!=" => Some(IntOp::Ne),
        "<" => Some(IntOp::Lt),
        "<=" => Some(IntOp::Le),
        ">" => Some(IntOp::Gt),
        ">=" => Some(IntOp::Ge),
        _ => None,
    }
}

fn unary_of(word: &str) -> Option<UnaryOp> {
    match word {
        "neg" => Some(UnaryOp::Neg),
        "~" => Some(UnaryOp::Complement),
        "!" => Some(UnaryOp::Not),
        _ => None,
    }
}

/// The value of a constant of a kind, which has 32 or 64 bits.
fn value_of(kind: &str, n: i128) -> Result<Value, Stop> {
    let Some(k) = kind_of(kind) else {
        return Err(Stop::Unreadable);
    };
    let bits = repr(k, n);
    if k.width() == 64 {
        return Ok(Value::Vlong(bits));
    }
    match u32::try_from(bits) {
        Ok(bits) => Ok(Value::Vint(bits)),
        Err(_) => Err(Stop::Unreadable),
    }
}

#[cycle(expression)]
fn shared_of(alloc: Global, tree: &Tree, depth: u32) -> Result<Shared<Expr>, Stop> {
    Ok(Shared::new(alloc, expression_of(alloc, tree, depth)?)?)
}

/// An expression between parentheses, with its type last: `(const N T)`, `(temp x T)`, `(local x T)`, `(file x T)`,
/// `(* E T)`, `(address E T)`, `(cast E T)`, `(field E x T)`, `(sizeof T U)`, or an operator's word with its operands.
#[cycle(expression)]
pub fn expression_of(alloc: Global, tree: &Tree, depth: u32) -> Result<Expr, Stop> {
    if depth == 0 {
        return Err(Stop::Unreadable);
    }
    let parts = tree.parts();
    let last = part(parts, parts.len().saturating_sub(1))?;
    let ty = ctype_of(alloc, last, TYPE_DEPTH)?;
    let first = part(parts, 1)?;
    match (part(parts, 0)?.word(), parts.len()) {
        ("const", _) => Ok(Expr::Const(value_of(last.word(), first.number()?)?, ty)),
        ("temp", _) => Ok(Expr::Temp(first.name()?, ty)),
        ("local", _) => Ok(Expr::Var(Binding::Block, first.name()?, ty)),
        ("file", _) => Ok(Expr::Var(Binding::File, first.name()?, ty)),
        ("sizeof", _) => Ok(Expr::SizeOf(ctype_of(alloc, first, TYPE_DEPTH)?, ty)),
        ("*", 3) => Ok(Expr::Deref(shared_of(alloc, first, depth - 1)?, ty)),
        ("address", _) => Ok(Expr::AddrOf(shared_of(alloc, first, depth - 1)?, ty)),
        ("cast", _) => Ok(Expr::Cast(shared_of(alloc, first, depth - 1)?, ty)),
        ("field", _) => {
            let whole = shared_of(alloc, first, depth - 1)?;
            Ok(Expr::Field(whole, part(parts, 2)?.name()?, ty))
        }
        (word, 3) => match unary_of(word) {
            Some(op) => Ok(Expr::Unary(op, shared_of(alloc, first, depth - 1)?, ty)),
            None => Err(Stop::Unreadable),
        },
        (word, _) => match operator_of(word) {
            Some(op) => {
                let left = shared_of(alloc, first, depth - 1)?;
                let right = shared_of(alloc, part(parts, 2)?, depth - 1)?;
                Ok(Expr::Binary(op, left, right, ty))
            }
            None => Err(Stop::Unreadable),
        },
    }
}
