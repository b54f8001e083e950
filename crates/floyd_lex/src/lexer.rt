ghost use Rattle.std.specs.Prelude.{◌≡◌, ◌<◌, ◌≤◌, ◌^◌, [], ◌∷◌, ◌++◌, length, take, IfOk, OnErr};
ghost use Rattle.std.specs.List.{suffix_len};
ghost use Rattle.floyd_text.specs.Place.{is_other};
ghost use Rattle.floyd_lex.specs.CuttingClauses.{EndsAt, HasCut};
ghost use Rattle.floyd_lex.specs.Laws.{AreLines};
ghost use Rattle.floyd_lex.specs.LexerClauses.{cut_as, is_open};
ghost use Rattle.floyd_lex.specs.Lexing.{AreSettled, IsCutInto, number_of_kind, of_result, whole_lines};
ghost use Rattle.floyd_lex.specs.Token.{empty_list};

use crate::cutting::{Stand, cut_from, refusal_at};
use crate::front::comment_len;
use crate::kinds::FileKind;
use crate::lead::Flaw;
use crate::list::Tokens;
use crate::spot::Spot;
use floyd_text::{Bytes, Refusal, Taker};
use std::alloc::{AllocError, Global};
use std::marker::Model;

/// What a file is cut into: its tokens, or its first refusal.
pub enum Cut {
    Tokens(Tokens),
    Refused(Refusal),
}

impl Drop for Cut {
    fn drop(self) {
        match self {
            Cut::Tokens(tokens) => drop(tokens),
            Cut::Refused(refusal) => drop(refusal),
        }
    }
}

impl Cut {
    /// The tokens, or the refusal.
    pub fn into_result(self) -> Result<Tokens, Refusal>
        ensures { self ≡ of_result result }
    {
        match self {
            Cut::Tokens(tokens) => Ok(tokens),
            Cut::Refused(refusal) => Err(refusal),
        }
    }
}

/// The bytes of a file, with what they are cut into.
pub struct Lexed {
    pub bytes: Bytes,
    pub cut: Cut,
}

impl Drop for Lexed {
    fn drop(self) {
        let Lexed { bytes, cut } = self;
        drop(bytes);
        drop(cut);
    }
}

impl Lexed {
    pub fn into_parts(self) -> (Bytes, Cut)
        ensures { result ≡ (self.bytes, self.cut) }
    {
        let Lexed { bytes, cut } = self;
        (bytes, cut)
    }
}

/// A file that is cut into tokens while it comes in pieces: each piece that ends lines has them cut. It keeps the bytes,
/// and goes on taking them behind its first refusal.
pub struct Lexer {
    kind: FileKind,
    bytes: Vec<u8>,
    tokens: Tokens,
    /// How many bytes the whole lines have.
    lines: usize,
    /// Where the cut of the whole lines ended.
    stand: Stand,
}

impl Drop for Lexer {
    fn drop(self) {
        let Lexer {
            kind: _,
            bytes,
            tokens,
            lines: _,
            stand: _,
        } = self;
        drop(bytes);
        drop(tokens);
    }
}

impl Model for Lexer {
    ghost use Rattle.floyd_lex.specs.Lexing.{Lexing};
    ghost use Rattle.floyd_lex.specs.LexerClauses.{IsLexing};

    ghost Value = { Lexing };

    ghost view = { λ l. record { kind = l.kind; file = l.tokens.file; taken = l.bytes.items } };

    ghost invariant = { λ l. IsLexing l.kind l.bytes.items l.tokens l.lines l.stand };
}

/// A lexer of a file of this kind and number, which has taken nothing.
pub fn start(alloc: Global, kind: FileKind, file: u32) -> Result<Lexer, AllocError>
    ensures { result ≡ Ok (record { kind = kind; file = file; taken = [] }) }
{
    Ok(Lexer {
        kind,
        bytes: Vec::new(alloc),
        tokens: Tokens::new(alloc, file),
        lines: 0,
        stand: Stand {
            spot: Spot {
                at: 0,
                feeds: 0,
                begin: 0,
            },
            flaw: None,
        },
    })
}

impl Taker for Lexer {
    ghost taken = { λ l. l.taken };

    ghost origin = { λ l. number_of_kind l.kind ∷ l.file ∷ [] };

    /// Bytes are numbered by `u32`: for one beyond there is no room.
    fn take(&mut self, piece: &[u8]) -> Result<(), AllocError> {
        let len = self.bytes.len();
        if piece.len() > u32::MAX as usize - len {
            return Err(AllocError);
        }
        self.bytes.extend_from_slice(piece)?;
        let lines = end_of_lines(self.bytes.as_slice(), len, self.lines);
        let whole = &self.bytes.as_slice()[..lines];
        match cut_more(self.kind, whole, &mut self.tokens, self.lines, self.stand) {
            Ok(stand) => {
                self.lines = lines;
                self.stand = stand;
                Ok(())
            }
            Err(error) => {
                self.bytes.truncate(len);
                Err(error)
            }
        }
    }
}

impl Lexer {
    /// The tokens of the whole lines so far, up to the first refusal in them.
    pub fn settled(&self) -> &Tokens
        ensures { AreSettled self.now result.now }
    {
        &self.tokens
    }

    /// Cuts the last line, and gives all bytes with what they are cut into, however they came in pieces.
    pub fn finish(self) -> Result<Lexed, AllocError>
        ensures { IfOk result (λ lexed. (lexed.bytes ≡ self.taken) × IsCutInto self lexed.cut) }
    {
        let Lexer {
            kind,
            bytes,
            mut tokens,
            lines,
            stand,
        } = self;
        let stand = cut_more(kind, bytes.as_slice(), &mut tokens, lines, stand)?;
        let cut = cut_of(tokens, stand, bytes.as_slice());
        Ok(Lexed {
            bytes: Bytes::from_vec(bytes),
            cut,
        })
    }
}

/// Cuts what came behind the first bytes, which are whole lines. After an `Err` the tokens are as before.
fn cut_more(
    kind: FileKind,
    bytes: &[u8],
    tokens: &mut Tokens,
    old: usize,
    stand: Stand,
) -> Result<Stand, AllocError>
    requires small { length bytes.now < 2 ^ 32 }
    requires within { old ≤ length bytes.now }
    requires lines { AreLines (take old bytes.now) }
    requires cut { HasCut kind (take old bytes.now) 0 (empty_list tokens.old.file) tokens.old stand }
    ensures ok { IfOk result (HasCut kind bytes.now 0 (empty_list tokens.old.file) tokens.new) }
    ensures err { OnErr result (tokens.new ≡ tokens.old) }
{
    match stand.flaw {
        None => cut_from(kind, bytes, tokens, stand.spot),
        Some((flaw, _)) => {
            if !is_open(flaw) {
                return Ok(stand);
            }
            if comment_len(&bytes[old..]).is_none() {
                return Ok(stand);
            }
            cut_from(kind, bytes, tokens, stand.spot)
        }
    }
}

/// Whether it is a comment that may still end.
fn is_open(flaw: Flaw) -> bool
    ensures { result ≡ is_open flaw }
{
    matches!(flaw, Flaw::OpenComment)
}

/// What the tokens are, or the flaw that they end before.
fn cut_of(tokens: Tokens, stand: Stand, bytes: &[u8]) -> Cut
    requires spot { stand.spot.at ≤ length bytes.now }
    requires ends { EndsAt bytes.now stand.spot stand.flaw }
    ensures { result ≡ cut_as tokens stand.flaw bytes.now }
{
    match stand.flaw {
        None => Cut::Tokens(tokens),
        Some((flaw, at)) => Cut::Refused(refusal_at(flaw, tokens.file(), bytes, at)),
    }
}

/// How many bytes the whole lines have, where those of the first `len` bytes have so many.
fn end_of_lines(bytes: &[u8], len: usize, lines: usize) -> usize
    requires within { len ≤ length bytes.now }
    requires lines { lines ≡ length (whole_lines (take len bytes.now)) }
    ensures value { result ≡ length (whole_lines bytes.now) }
    ensures within { result ≤ length bytes.now }
    ensures after { lines ≤ result }
{
    let piece = &bytes[len..];
    let tail = bytes_on_last_line(piece);
    if tail == piece.len() {
        lines
    } else {
        len + (piece.len() - tail)
    }
}

/// How many bytes stand after the last line feed.
fn bytes_on_last_line(bytes: &[u8]) -> usize
    ensures { result ≡ suffix_len is_other bytes.now }
{
    let mut n = bytes.len();
    'back: while n > 0 && bytes[n - 1] != b'\n' {
        n -= 1;
    }
    bytes.len() - n
}
