//! The operators and casts of integers, compared with what gcc gives.

use crate::words::{Stop, kind_of, number, some_number, word};
use floyd_int::{IntKind, IntOp, binary, cast, negate, repr};

static KINDS: [IntKind; 8] = [
    IntKind::I8,
    IntKind::U8,
    IntKind::I16,
    IntKind::U16,
    IntKind::I32,
    IntKind::U32,
    IntKind::I64,
    IntKind::U64,
];

static OPERATORS: [IntOp; 10] = [
    IntOp::Add,
    IntOp::Sub,
    IntOp::Mul,
    IntOp::Div,
    IntOp::Rem,
    IntOp::And,
    IntOp::Or,
    IntOp::Xor,
    IntOp::Shl,
    IntOp::Shr,
];

static COMPARISONS: [IntOp; 6] = [
    IntOp::Eq,
    IntOp::Ne,
    IntOp::Lt,
    IntOp::Le,
    IntOp::Gt,
    IntOp::Ge,
];

/// Whether the operators give what the words say, of bits of this kind.
fn give(
    operators: &[IntOp],
    kind: IntKind,
    first: u64,
    second: u64,
    wanted: &[&str],
) -> Result<bool, Stop> {
    if kind.width() < 32 {
        return Err(Stop::Unreadable);
    }
    let a = repr(kind, i128::from(first));
    let b = repr(kind, i128::from(second));
    if a != first || b != second || operators.len() != wanted.len() {
        return Err(Stop::Unreadable);
    }
    'operators: for (op, want) in operators.iter().zip(wanted.iter()) {
        if binary(*op, kind, a, b) != some_number(want, 16)? {
            return Ok(false);
        }
    }
    Ok(true)
}

/// Whether the negation is what the word says.
fn negates(kind: IntKind, first: u64, want: &str) -> Result<bool, Stop> {
    if kind.width() < 32 {
        return Err(Stop::Unreadable);
    }
    Ok(negate(kind, repr(kind, i128::from(first))) == some_number(want, 16)?)
}

/// A kind, two operands, and the results of the operators, of the negation and of the comparisons.
pub fn agrees(row: &[&str]) -> Result<bool, Stop> {
    let Some(kind) = kind_of(word(row, 0)?) else {
        return Err(Stop::Unreadable);
    };
    let first = number(word(row, 1)?, 16)?;
    let second = number(word(row, 2)?, 16)?;
    let results = row.get(3..13).unwrap_or(&[]);
    let comparisons = row.get(14..).unwrap_or(&[]);
    Ok(
        give(&OPERATORS, kind, first, second, results)?
            && negates(kind, first, word(row, 13)?)?
            && give(&COMPARISONS, kind, first, second, comparisons)?,
    )
}

/// A kind, bits, and their casts to each kind.
pub fn cast_agrees(row: &[&str]) -> Result<bool, Stop> {
    let Some(kind) = kind_of(word(row, 0)?) else {
        return Err(Stop::Unreadable);
    };
    let given = number(word(row, 1)?, 16)?;
    let bits = repr(kind, i128::from(given));
    let wanted = row.get(2..).unwrap_or(&[]);
    if bits != given || wanted.len() != KINDS.len() {
        return Err(Stop::Unreadable);
    }
    'kinds: for (to, want) in KINDS.iter().zip(wanted.iter()) {
        if cast(bits, kind, *to) != number(want, 16)? {
            return Ok(false);
        }
    }
    Ok(true)
}
