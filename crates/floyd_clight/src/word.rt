ghost use Rattle.std.specs.Prelude.{◌≡◌, option_map};
ghost use Rattle.floyd_clight.specs.Words.{word_seen, first_word as first_word_lem, first_of as first_of_lem, next_word as next_word_lem};

use crate::syntax::{Stmt, StmtList};
use floyd_text::Name;

/// What a goal shows of its next statement.
pub enum Word<'a> {
    /// The temporary that is set.
    Set(&'a Name),
    Store,
    Call,
    If,
    Loop,
    Switch,
    Break,
    Continue,
    Return,
    /// No statement is left.
    End,
}

/// The word of the next statement. `Skip` and an empty sequence are passed over.
pub fn next_word(s: &StmtList) -> Word<'_>
    ensures { word_seen result ≡ next_word_lem s.now }
{
    match first_of(s.as_slice()) {
        Some(word) => word,
        None => Word::End,
    }
}

/// The word of the first of them that has one.
#[cycle(first)]
fn first_of(statements: &[Stmt]) -> Option<Word<'_>>
    ensures { option_map word_seen result ≡ first_of_lem statements.now }
{
    'statements: for s in statements {
        if let Some(word) = first_word(s) {
            return Some(word);
        }
    }
    None
}

/// Its word, or that of its first statement which has one.
#[cycle(first)]
fn first_word(s: &Stmt) -> Option<Word<'_>>
    ensures { option_map word_seen result ≡ first_word_lem s.now }
{
    match s {
        Stmt::Skip => None,
        Stmt::Set(name, _) => Some(Word::Set(name)),
        Stmt::Assign(_, _) => Some(Word::Store),
        Stmt::Call(_, _, _) => Some(Word::Call),
        Stmt::Seq(parts) => first_of(parts.as_slice()),
        Stmt::If(_, _, _) => Some(Word::If),
        Stmt::Loop(_, _) => Some(Word::Loop),
        Stmt::Break => Some(Word::Break),
        Stmt::Continue => Some(Word::Continue),
        Stmt::Return(_) => Some(Word::Return),
        Stmt::Switch(_, _) => Some(Word::Switch),
    }
}
