//! Rows: a body, and the flags of its declarators.
use floyd_cparse::parse;
use floyd_cparse_trees::{BlockItem, CUnit, External};
use floyd_elab_addresses::{Flags, addresses, block_addresses};
use floyd_lex::{FileKind, tokens};
use std::alloc::{AllocError, Global};

/// How a line's row answers.
pub(crate) enum Verdict {
    NoRow,
    Agrees,
    Otherwise,
}

/// The flags as digits.
fn digits(alloc: Global, mut flags: Flags) -> Result<String, AllocError> {
    let mut text = String::new(alloc);
    'flags: while let Some(flag) = flags.pop_first() {
        text.push(if flag { '1' } else { '0' })?;
    }
    Ok(text)
}

/// The tree of a function with this body, or none where it does not read.
fn unit(alloc: Global, body: &str) -> Result<Option<CUnit>, AllocError> {
    let source = format!(in alloc; "void f(void) {{{body}}}")?;
    let bytes = source.as_bytes();
    if bytes.len() >= 1 << 32 {
        return Ok(None);
    }
    match tokens(alloc, FileKind::Source, 1, bytes) {
        Ok(list) => Ok(parse(alloc, 1, bytes, &list).ok()),
        Err(_) => Ok(None),
    }
}

/// Whether the body of the function has these flags.
fn body_has(alloc: Global, unit: &CUnit, wanted: &str) -> Result<bool, AllocError> {
    match unit.externals.as_slice() {
        [External::Function(f)] => {
            let flags = digits(alloc, block_addresses(alloc, f.body.as_slice())?)?;
            Ok(flags.as_str() == wanted)
        }
        _ => Ok(false),
    }
}

/// Whether the one statement of its body has these flags.
fn statement_has(alloc: Global, unit: &CUnit, wanted: &str) -> Result<bool, AllocError> {
    match unit.externals.as_slice() {
        [External::Function(f)] => match f.body.as_slice() {
            [BlockItem::Statement(s)] => {
                let flags = digits(alloc, addresses(alloc, s)?)?;
                Ok(flags.as_str() == wanted)
            }
            _ => Ok(false),
        },
        _ => Ok(false),
    }
}

fn as_it_stands(alloc: Global, body: &str, wanted: &str) -> Result<bool, AllocError> {
    match unit(alloc, body)? {
        Some(unit) => body_has(alloc, &unit, wanted),
        None => Ok(false),
    }
}

fn in_braces(alloc: Global, body: &str, wanted: &str) -> Result<bool, AllocError> {
    let block = format!(in alloc; "{{{body}}}")?;
    match unit(alloc, block.as_str())? {
        Some(unit) => statement_has(alloc, &unit, wanted),
        None => Ok(false),
    }
}

pub(crate) fn judge(alloc: Global, line: &str) -> Result<Verdict, AllocError> {
    if line.starts_with("//") {
        return Ok(Verdict::NoRow);
    }
    let Some((body, wanted)) = line.split_once('#') else {
        return Ok(Verdict::NoRow);
    };
    if as_it_stands(alloc, body, wanted)? && in_braces(alloc, body, wanted)? {
        Ok(Verdict::Agrees)
    } else {
        Ok(Verdict::Otherwise)
    }
}
