//! What is asked of texts, and what the readers answer.
ghost use Rattle.std.specs.Prelude.{◌<◌, ◌^◌, length};

use floyd_cparse::parse;
use floyd_cparse_trees::{BlockItem, CExpr, CStatement, CUnit, External};
use floyd_lex::{FileKind, Tokens, start, tokens};
use floyd_text::{Halt, Place, Refusal, Shown, Taker, place_of};
use std::alloc::{AllocError, Global};

/// The number of each text's file.
pub(crate) const FILE: u32 = 7;

/// What is asked of a text.
#[derive(Clone, Copy)]
pub(crate) enum Question {
    /// Into how many tokens it is cut.
    Cut(FileKind),
    /// What its tokens are, where they stand and how long they are.
    Name(FileKind),
    /// Whether it reads as a source of C.
    Read,
    /// Whether each beginning of it reads, or is refused at its end alone.
    Begin,
    /// Whether its one function returns `(a - b) - c`.
    Group,
    Unknown,
}

impl Question {
    /// The question of a heading.
    pub(crate) fn of(words: &str) -> Question {
        match words.as_bytes() {
            b"cut source" => Question::Cut(FileKind::Source),
            b"cut spec" => Question::Cut(FileKind::Spec),
            b"cut script" => Question::Cut(FileKind::Script),
            b"name source" => Question::Name(FileKind::Source),
            b"name spec" => Question::Name(FileKind::Spec),
            b"name script" => Question::Name(FileKind::Script),
            b"read" => Question::Read,
            b"begin" => Question::Begin,
            b"group" => Question::Group,
            _ => Question::Unknown,
        }
    }
}

/// How a place is written.
pub(crate) fn at(alloc: Global, place: Place) -> Result<String, AllocError> {
    format!(in alloc; " at {}:{}:{}", place.file, place.line, place.column)
}

/// The answer: what is found, or the code, name and place of the refusal.
pub(crate) fn answer(
    alloc: Global,
    question: Question,
    bytes: &[u8],
) -> Result<String, AllocError> {
    if bytes.len() >= 1 << 32 {
        return "too long".to_string(alloc);
    }
    match found(alloc, question, bytes) {
        Ok(text) => Ok(text),
        Err(halt) => stop(alloc, &halt),
    }
}

fn stop(alloc: Global, halt: &Halt) -> Result<String, AllocError> {
    match halt {
        Halt::Refused(refusal) => refusal_text(alloc, refusal),
        Halt::Memory => "no memory".to_string(alloc),
    }
}

fn refusal_text(alloc: Global, refusal: &Refusal) -> Result<String, AllocError> {
    let mut text = format!(in alloc; "{}", refusal.code.number())?;
    if let Shown::Name(name) = &refusal.shown {
        text.push(' ')?;
        'name: for b in name.as_slice() {
            text.push(*b as char)?;
        }
    }
    text.push_str(at(alloc, refusal.place)?.as_str())?;
    Ok(text)
}

fn found(alloc: Global, question: Question, bytes: &[u8]) -> Result<String, Halt>
    requires { length bytes.now < 2 ^ 32 }
{
    match question {
        Question::Cut(kind) => {
            let list = cut(alloc, kind, bytes)?;
            Ok(format!(in alloc; "{} tokens", list.len())?)
        }
        Question::Name(kind) => {
            let list = cut(alloc, kind, bytes)?;
            Ok(names(alloc, bytes, &list)?)
        }
        Question::Read => {
            read(alloc, bytes)?;
            Ok("reads".to_string(alloc)?)
        }
        Question::Begin => begin(alloc, bytes),
        Question::Group => group(alloc, bytes),
        Question::Unknown => Ok("no question".to_string(alloc)?),
    }
}

/// The tokens of the text, as they come in pieces of three bytes, taken as a part of themselves.
fn cut(alloc: Global, kind: FileKind, bytes: &[u8]) -> Result<Tokens, Halt> {
    let mut lexer = start(alloc, kind, FILE)?;
    'each: for piece in bytes.chunks(3) {
        lexer.take(piece)?;
    }
    let settled = lexer.settled().len();
    let (_, cut) = lexer.finish()?.into_parts();
    match cut.into_result() {
        Ok(list) if settled <= list.len() => Ok(list.part(alloc, 0, list.len())?),
        Ok(list) => Ok(list),
        Err(refusal) => Err(Halt::Refused(refusal)),
    }
}

/// What each token is, with its place and its length.
fn names(alloc: Global, bytes: &[u8], list: &Tokens) -> Result<String, AllocError> {
    let mut all = String::new(alloc);
    'each: for index in 0..list.len() {
        if index > 0 {
            all.push_str("; ")?;
        }
        all.push_str(name(alloc, bytes, list, index)?.as_str())?;
    }
    Ok(all)
}

fn name(alloc: Global, bytes: &[u8], list: &Tokens, index: usize) -> Result<String, AllocError>
    requires { index < length list.now.items }
{
    let place = list.place(index);
    let length = list.text(bytes, index).len();
    match list.kind(index) {
        Some(kind) => { format!(in alloc; "{kind:?} {}:{}+{length}", place.line, place.column) }
        None => "none".to_string(alloc),
    }
}

fn read(alloc: Global, bytes: &[u8]) -> Result<CUnit, Halt>
    requires { length bytes.now < 2 ^ 32 }
{
    let list = tokens(alloc, FileKind::Source, FILE, bytes)?;
    parse(alloc, FILE, bytes, &list)
}

/// Whether the text reads, or is refused at its end.
fn may_go_on(alloc: Global, bytes: &[u8]) -> bool
    requires { length bytes.now < 2 ^ 32 }
{
    match read(alloc, bytes) {
        Ok(_) => true,
        Err(halt) => is_at_end(&halt, bytes),
    }
}

fn is_at_end(halt: &Halt, bytes: &[u8]) -> bool {
    match halt {
        Halt::Refused(refusal) => refusal.code.number() == 301
            && refusal.place == place_of(FILE, bytes, bytes.len()),
        Halt::Memory => false,
    }
}

fn begin(alloc: Global, bytes: &[u8]) -> Result<String, Halt>
    requires { length bytes.now < 2 ^ 32 }
{
    let list = tokens(alloc, FileKind::Source, FILE, bytes)?;
    'each: for index in 0..list.len() {
        let (_, end) = list.span(index);
        if !may_go_on(alloc, &bytes[..bytes.len().min(end as usize)]) {
            return Ok(format!(in alloc; "stops behind token {index}")?);
        }
    }
    Ok("goes on".to_string(alloc)?)
}

fn group(alloc: Global, bytes: &[u8]) -> Result<String, Halt>
    requires { length bytes.now < 2 ^ 32 }
{
    let unit = read(alloc, bytes)?;
    if groups_left(&unit) {
        Ok("left".to_string(alloc)?)
    } else {
        Ok("other".to_string(alloc)?)
    }
}

/// Whether the first declaration is a function that returns `(a - b) - c`.
fn groups_left(unit: &CUnit) -> bool {
    match unit.externals.get(0) {
        Some(External::Function(function)) => match function.body.get(0) {
            Some(
                BlockItem::Statement(
                    CStatement::Return {
                        value: Some(value),
                        ..
                    },
                ),
            ) => is_left_difference(value),
            _ => false,
        },
        _ => false,
    }
}

fn is_left_difference(e: &CExpr) -> bool {
    match e {
        CExpr::Binary { left, right, .. } => { is_binary(left.get()) && is_name(right.get(), b"c") }
        _ => false,
    }
}

fn is_binary(e: &CExpr) -> bool {
    match e {
        CExpr::Binary { left, right, .. } => is_name(left.get(), b"a")
            && is_name(right.get(), b"b"),
        _ => false,
    }
}

fn is_name(e: &CExpr, text: &[u8]) -> bool {
    match e {
        CExpr::Name(name) => name.name.as_slice() == text,
        _ => false,
    }
}
