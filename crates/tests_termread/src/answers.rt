//! What is read of texts.
ghost use Rattle.std.specs.Prelude.{◌<◌, ◌^◌, length};

use crate::sorts::sort_of;
use floyd_assert::{equal_formula, equal_part};
use floyd_assert_trees::{Assertion, Binder, Local, Sep};
use floyd_lex::{FileKind, Tokens, tokens};
use floyd_termread::{Scope, read_assertion, read_formula, read_path, read_term, read_type};
use floyd_text::{Code, Halt, Place, Refusal, Shown};
use floyd_tree::{AType, Formula, Path, Sort, Term, equal};
use std::alloc::{AllocError, Global};

/// The number of each text's file.
pub(crate) const FILE: u32 = 7;

/// What a text is.
#[derive(Drop)]
pub(crate) enum Kind {
    /// A term, where a sort is expected, or none.
    Term(Option<Sort>),
    Formula,
    Type,
    Path,
    Assertion,
    Unknown,
}

impl Kind {
    /// What a heading says.
    pub(crate) fn of(alloc: Global, heading: &str) -> Result<Kind, AllocError> {
        if let Some(sort) = heading.strip_prefix("term ") {
            return Ok(Kind::Term(sort_of(alloc, sort)?));
        }
        match heading.as_bytes() {
            b"term" => Ok(Kind::Term(None)),
            b"formula" => Ok(Kind::Formula),
            b"type" => Ok(Kind::Type),
            b"path" => Ok(Kind::Path),
            b"assertion" => Ok(Kind::Assertion),
            _ => Ok(Kind::Unknown),
        }
    }
}

/// What a text reads as.
#[derive(Drop)]
enum Phrase {
    Term(Term),
    Formula(Formula),
    Type(AType),
    Path(Path),
    Assertion(Assertion),
    Nothing,
}

fn same_binders(a: &[Binder], b: &[Binder]) -> bool {
    a.len() == b.len() && a.iter().zip(b).all(|(x, y)| x.same(y))
}

fn same_formulas(a: &[Formula], b: &[Formula]) -> bool {
    a.len() == b.len() && a.iter().zip(b).all(|(x, y)| equal_formula(x, y))
}

fn same_locals(a: &[Local], b: &[Local]) -> bool {
    a.len() == b.len()
        && a.iter()
            .zip(b)
            .all(|(x, y)| x.name == y.name && equal(&x.term, &y.term))
}

fn same_parts(a: &[Sep], b: &[Sep]) -> bool {
    a.len() == b.len() && a.iter().zip(b).all(|(x, y)| equal_part(x, y))
}

fn same_assertion(a: &Assertion, b: &Assertion) -> bool {
    same_binders(a.existentials.as_slice(), b.existentials.as_slice())
        && same_formulas(a.props.as_slice(), b.props.as_slice())
        && same_locals(a.locals.as_slice(), b.locals.as_slice())
        && same_parts(a.parts.as_slice(), b.parts.as_slice())
}

fn is_same(a: &Phrase, b: &Phrase) -> bool {
    match (a, b) {
        (Phrase::Term(a), Phrase::Term(b)) => equal(a, b),
        (Phrase::Formula(a), Phrase::Formula(b)) => equal_formula(a, b),
        (Phrase::Assertion(a), Phrase::Assertion(b)) => same_assertion(a, b),
        _ => false,
    }
}

/// How a place is written.
pub(crate) fn at(alloc: Global, place: Place) -> Result<String, AllocError> {
    format!(in alloc; " at {}:{}:{}", place.file, place.line, place.column)
}

fn phrase_of(
    alloc: Global,
    scope: &Scope<'_>,
    kind: &Kind,
    bytes: &[u8],
    list: &Tokens,
) -> Result<(Phrase, u32), Halt>
    requires { length list.now.items < 2 ^ 32 }
{
    match kind {
        Kind::Term(expected) => {
            let (term, next) = read_term(alloc, scope, bytes, list, 0, expected.as_ref())?;
            Ok((Phrase::Term(term), next))
        }
        Kind::Formula => {
            let (formula, next) = read_formula(alloc, scope, bytes, list, 0)?;
            Ok((Phrase::Formula(formula), next))
        }
        Kind::Type => {
            let (t, next) = read_type(alloc, scope, bytes, list, 0)?;
            Ok((Phrase::Type(t), next))
        }
        Kind::Path => {
            let (path, next) = read_path(alloc, scope, bytes, list, 0)?;
            Ok((Phrase::Path(path), next))
        }
        Kind::Assertion => {
            let (assertion, next) = read_assertion(alloc, scope, bytes, list, 0)?;
            Ok((Phrase::Assertion(assertion), next))
        }
        Kind::Unknown => Ok((Phrase::Nothing, 0)),
    }
}

/// The whole text as one phrase. What stands behind a phrase is refused as the readers of items do.
fn read(alloc: Global, scope: &Scope<'_>, kind: &Kind, bytes: &[u8]) -> Result<Phrase, Halt>
    requires { length bytes.now < 2 ^ 32 }
{
    let list = tokens(alloc, FileKind::Spec, FILE, bytes)?;
    if list.len() >= 1 << 32 {
        return Err(Halt::Memory);
    }
    let (phrase, next) = phrase_of(alloc, scope, kind, bytes, &list)?;
    let next = next as usize;
    if next < list.len() {
        let place = list.place(next);
        return Err(Halt::Refused(Refusal::at(Code::UnexpectedInSpec, place, Shown::Nothing)));
    }
    Ok(phrase)
}

fn refusal_text(alloc: Global, refusal: &Refusal) -> Result<String, AllocError> {
    let mut text = format!(in alloc; "{}", refusal.code.number())?;
    text.push_str(at(alloc, refusal.place)?.as_str())?;
    Ok(text)
}

/// Whether both texts read as one.
fn agree(
    alloc: Global,
    scope: &Scope<'_>,
    kind: &Kind,
    phrase: &Phrase,
    other: &str,
) -> Result<bool, AllocError> {
    if other.len() >= 1 << 32 {
        return Ok(false);
    }
    match &read(alloc, scope, kind, other.as_bytes()) {
        Ok(other) => Ok(is_same(phrase, other)),
        Err(Halt::Refused(_)) => Ok(false),
        Err(Halt::Memory) => Err(AllocError),
    }
}

/// What is found of a text: `reads`, or the other text where it reads as that, or the code and the place of the refusal.
pub(crate) fn answer(
    alloc: Global,
    scope: &Scope<'_>,
    kind: &Kind,
    bytes: &[u8],
    other: Option<&str>,
) -> Result<String, AllocError> {
    if bytes.len() >= 1 << 32 {
        return "too long".to_string(alloc);
    }
    match &read(alloc, scope, kind, bytes) {
        Ok(phrase) => match other {
            None => "reads".to_string(alloc),
            Some(other) if agree(alloc, scope, kind, phrase, other)? => {
                format!(in alloc; "as {other}")
            }
            Some(_) => "reads otherwise".to_string(alloc),
        },
        Err(Halt::Refused(refusal)) => refusal_text(alloc, refusal),
        Err(Halt::Memory) => Err(AllocError),
    }
}
