ghost use Rattle.std.specs.Prelude.{◌≡◌, ◌++◌, OnOk, option_map};
ghost use Rattle.floyd_clight.specs.Words.{first_word, next_word as next_word_lem, word_seen};
ghost use Rattle.floyd_show.specs.Goals.{next_text};
ghost use Rattle.floyd_show.specs.NextClauses.{unless_end as unless_end_lem};

use floyd_clight::{Stmt, Word, next_word};
use floyd_goal_trees::Rest;
use floyd_text::Bytes;
use std::alloc::AllocError;

fn unless_end(word: Word<'_>) -> Option<Word<'_>>
    ensures { option_map word_seen result ≡ unless_end_lem (word_seen word.entry) }
{
    match word {
        Word::End => None,
        word => Some(word),
    }
}

/// What a goal shows of the statement, unless it is passed over, as `Skip` and an empty sequence are.
#[tactic(auto, using(crate::proofs::NextLemmas::seq_word))]
fn word_of(statement: &Stmt) -> Option<Word<'_>>
    ensures { option_map word_seen result ≡ first_word statement.now }
{
    match statement {
        Stmt::Skip => None,
        Stmt::Set(name, _) => Some(Word::Set(name)),
        Stmt::Assign(_, _) => Some(Word::Store),
        Stmt::Call(_, _, _) => Some(Word::Call),
        Stmt::Seq(parts) => unless_end(next_word(parts)),
        Stmt::If(_, _, _) => Some(Word::If),
        Stmt::Loop(_, _) => Some(Word::Loop),
        Stmt::Break => Some(Word::Break),
        Stmt::Continue => Some(Word::Continue),
        Stmt::Return(_) => Some(Word::Return),
        Stmt::Switch(_, _) => Some(Word::Switch),
    }
}

/// Puts the word at the end.
fn put_word(out: &mut Bytes, word: Word<'_>) -> Result<(), AllocError>
    ensures { OnOk result (out.new ≡ out.old ++ next_text (word_seen word.entry)) }
{
    match word {
        Word::Set(name) => {
            out.extend("set ".as_bytes())?;
            out.extend(name.as_slice())
        }
        Word::Store => out.extend("store".as_bytes()),
        Word::Call => out.extend("call".as_bytes()),
        Word::If => out.extend("if".as_bytes()),
        Word::Loop => out.extend("loop".as_bytes()),
        Word::Switch => out.extend("switch".as_bytes()),
        Word::Break => out.extend("break".as_bytes()),
        Word::Continue => out.extend("continue".as_bytes()),
        Word::Return => out.extend("return".as_bytes()),
        Word::End => out.extend("end".as_bytes()),
    }
}

/// Puts at the end what the goal shows of the statements that are left.
#[tactic(auto, using(crate::proofs::NextLemmas::found, crate::proofs::NextLemmas::passed, crate::proofs::NextLemmas::none_left, crate::proofs::NextLemmas::fewer))]
pub(crate) fn put_next(out: &mut Bytes, rest: &Rest) -> Result<(), AllocError>
    ensures { OnOk result (out.new ≡ out.old ++ next_text (next_word_lem rest.now)) }
{
    let mut left = rest.share()?;
    'statements: while let Some(statement) = left.first() {
        if let Some(word) = word_of(statement) {
            return put_word(out, word);
        }
        left.advance();
    }
    put_word(out, Word::End)
}
