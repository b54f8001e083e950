//! Flat lists of statements, and the words of their first ones.

use crate::words::{Stop, word};
use floyd_clight::{Expr, Stmt, Word, flat, next_word};
use floyd_ctypes::CType;
use floyd_int::{IntKind, Value};
use floyd_text::{Name, Shared};
use sqlite_items::Items;
use std::alloc::{AllocError, Global};

fn zero() -> Expr {
    Expr::Const(Value::Vint(0), CType::Int(IntKind::I32))
}

/// A statement with two parts that do nothing.
fn with_parts(alloc: Global, is_if: bool) -> Result<Stmt, AllocError> {
    let first = Shared::new(alloc, Stmt::Skip)?;
    let second = Shared::new(alloc, Stmt::Skip)?;
    if is_if {
        Ok(Stmt::If(zero(), first, second))
    } else {
        Ok(Stmt::Loop(first, second))
    }
}

/// The statement of a letter.
fn statement(alloc: Global, letter: u8) -> Result<Stmt, AllocError> {
    match letter {
        b's' => Ok(Stmt::Set(Name::from_slice(alloc, b"x")?, zero())),
        b'a' => Ok(Stmt::Assign(zero(), zero())),
        b'c' => Ok(Stmt::Call(None, zero(), Items::new(alloc))),
        b'w' => Ok(Stmt::Switch(zero(), Items::new(alloc))),
        b'b' => Ok(Stmt::Break),
        b'n' => Ok(Stmt::Continue),
        b'r' => Ok(Stmt::Return(None)),
        b'i' => with_parts(alloc, true),
        b'l' => with_parts(alloc, false),
        _ => Ok(Stmt::Skip),
    }
}

/// The sequence of a word's letters.
fn sequence(alloc: Global, word: &str) -> Result<Stmt, Stop> {
    let mut parts = Items::new(alloc);
    'letters: for letter in word.as_bytes() {
        parts.push(statement(alloc, *letter)?)?;
    }
    Ok(Stmt::Seq(parts))
}

/// The sequence of the sequences of a text's words.
fn sequences(alloc: Global, text: &str) -> Result<Stmt, Stop> {
    let mut parts = Items::new(alloc);
    'words: for word in text.split('|') {
        parts.push(sequence(alloc, word)?)?;
    }
    Ok(Stmt::Seq(parts))
}

fn letter_of(s: &Stmt) -> u8 {
    match s {
        Stmt::Skip => b'k',
        Stmt::Set(_, _) => b's',
        Stmt::Assign(_, _) => b'a',
        Stmt::Call(_, _, _) => b'c',
        Stmt::Seq(_) => b'(',
        Stmt::If(_, _, _) => b'i',
        Stmt::Loop(_, _) => b'l',
        Stmt::Switch(_, _) => b'w',
        Stmt::Break => b'b',
        Stmt::Continue => b'n',
        Stmt::Return(_) => b'r',
    }
}

/// What a goal prints of it.
fn text_of(word: Word<'_>) -> &'static str {
    match word {
        Word::Set(name) if name.as_slice() == b"x".as_slice() => "set-x",
        Word::Set(_) => "set",
        Word::Store => "store",
        Word::Call => "call",
        Word::If => "if",
        Word::Loop => "loop",
        Word::Switch => "switch",
        Word::Break => "break",
        Word::Continue => "continue",
        Word::Return => "return",
        Word::End => "end",
    }
}

/// Whether the statements are those of the letters.
fn have_letters(all: &[Stmt], letters: &[u8]) -> bool {
    if all.len() != letters.len() {
        return false;
    }
    'statements: for (s, letter) in all.iter().zip(letters.iter()) {
        if letter_of(s) != *letter {
            return false;
        }
    }
    true
}

/// A text of letters, the letters of its statements, and the word of the first.
pub fn agrees(alloc: Global, row: &[&str]) -> Result<bool, Stop> {
    let letters = match word(row, 1)? {
        "." => "",
        letters => letters,
    };
    let nested = sequences(alloc, word(row, 0)?)?;
    let all = flat(alloc, &nested)?;
    let mut whole = Items::new(alloc);
    whole.push(nested)?;
    let wanted = word(row, 2)?;
    Ok(
        have_letters(all.as_slice(), letters.as_bytes())
            && text_of(next_word(&all)) == wanted
            && text_of(next_word(&whole)) == wanted,
    )
}
