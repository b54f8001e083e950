ghost use Rattle.std.specs.Prelude.{◌≡◌, ◌+◌, ◌<◌, ◌≤◌, ◌^◌, length, Some, IfOk, OnOk, OnErr};
ghost use Rattle.floyd_lex.specs.Token.{with_last};
ghost use Rattle.floyd_text.specs.Place.{place_at};
ghost use Rattle.floyd_lex.specs.Cuts as specs;
ghost use Rattle.floyd_lex.specs.SpotClauses.{IsSpot};
ghost use Rattle.floyd_lex.specs.CuttingClauses.{HasCut, HasMore, place_of_spot};

use crate::front::front;
use crate::kinds::{FileKind, TokenKind};
use crate::lead::{Flaw, Lead};
use crate::list::Tokens;
use crate::spot::Spot;
use floyd_text::{Halt, Refusal, Shown, place_of};
use std::alloc::{AllocError, Global};

/// The greatest number of tokens of a file.
const TOKEN_LIMIT: usize = 1000000;

/// Where a cut ended: at the end of the bytes, or before a flaw, which stands at its offset.
#[derive(Clone, Copy)]
pub struct Stand {
    pub spot: Spot,
    pub flaw: Option<(Flaw, usize)>,
}

/// The tokens of a file of this kind and number, or its first refusal at its place: 201 at a byte that begins no token
/// or is no UTF-8 where it has to be, 202 at a comment that does not end, 203 at a literal that something else directly
/// follows or that no type holds, 204 at one token too many, 205 at a name of more than 255 bytes.
///
/// A source goes by the lexical grammar of C (C11, 6.4), as it is behind the preprocessor: without trigraphs, digraphs,
/// floating constants, and characters outside ASCII in names; a literal's type is C's, for an int of 32 bits and a long
/// of 64. A line whose first character other than a blank is `#`, with blanks and a digit behind it, is skipped. Names of
/// specifications and scripts go by Unicode's XID_Start and XID_Continue; the rest of their tokens is our own.
///
/// The bytes are numbered by `u32`.
pub fn tokens(alloc: Global, kind: FileKind, file: u32, bytes: &[u8]) -> Result<Tokens, Halt>
    requires { length bytes.now < 2 ^ 32 }
    ensures { specs.Answers (specs.IsCut kind file bytes.now) result }
{
    let mut tokens = Tokens::new(alloc, file);
    let start = Spot {
        at: 0,
        feeds: 0,
        begin: 0,
    };
    let stand = cut_from(kind, bytes, &mut tokens, start)?;
    match stand.flaw {
        None => Ok(tokens),
        Some((flaw, at)) => Err(Halt::Refused(refusal_at(flaw, file, bytes, at))),
    }
}

/// Cuts the bytes from there on, behind the tokens that there are. After an `Err` these are as before.
pub fn cut_from(
    kind: FileKind,
    bytes: &[u8],
    tokens: &mut Tokens,
    from: Spot,
) -> Result<Stand, AllocError>
    requires small { length bytes.now < 2 ^ 32 }
    requires spot { IsSpot bytes.now from }
    requires count { length tokens.old.items ≤ 1000000 }
    ensures ok { IfOk result (HasCut kind bytes.now from.at tokens.old tokens.new) }
    ensures err { OnErr result (tokens.new ≡ tokens.old) }
{
    let len = tokens.len();
    match cut_rest(kind, bytes, tokens, from) {
        Ok(stand) => Ok(stand),
        Err(error) => {
            tokens.truncate(len);
            Err(error)
        }
    }
}

/// The same, but that after an `Err` there may be tokens more.
fn cut_rest(
    kind: FileKind,
    bytes: &[u8],
    tokens: &mut Tokens,
    from: Spot,
) -> Result<Stand, AllocError>
    requires small { length bytes.now < 2 ^ 32 }
    requires spot { IsSpot bytes.now from }
    requires count { length tokens.old.items ≤ 1000000 }
    ensures ok { IfOk result (HasCut kind bytes.now from.at tokens.old tokens.new) }
    ensures err { OnErr result (HasMore tokens.old tokens.new) }
{
    let mut spot = from;
    'each: loop {
        match front(kind, &bytes[..spot.at], &bytes[spot.at..]) {
            Lead::End => return Ok(Stand { spot, flaw: None }),
            Lead::Skip(n) => spot = spot.pass(bytes, n),
            Lead::Piece(token, n) => {
                if tokens.len() == TOKEN_LIMIT {
                    return Ok(stand_before(Flaw::TooManyTokens, spot, 0));
                }
                if is_long_name(token, n) {
                    return Ok(stand_before(Flaw::LongName, spot, 0));
                }
                push_at(tokens, token, spot, n)?;
                spot = spot.pass(bytes, n);
            }
            Lead::Bad(flaw, n) => return Ok(stand_before(flaw, spot, n)),
        }
    }
}

/// Before a flaw that stands n bytes further on.
fn stand_before(flaw: Flaw, spot: Spot, n: usize) -> Stand
    requires { spot.at + n < 2 ^ 32 }
    ensures { result ≡ record { spot = spot; flaw = Some (flaw, spot.at + n) } }
{
    Stand {
        spot,
        flaw: Some((flaw, spot.at + n)),
    }
}

/// Puts the token of n bytes that begins there.
fn push_at(tokens: &mut Tokens, token: TokenKind, spot: Spot, n: usize) -> Result<(), AllocError>
    requires small { spot.at + n < 2 ^ 32 }
    requires begin { spot.begin ≤ spot.at }
    ensures ok { OnOk result (tokens.new ≡ with_last tokens.old record { kind = token; start = spot.at; end = spot.at + n; place = place_of_spot tokens.old.file spot }) }
    ensures err { OnErr result (tokens.new ≡ tokens.old) }
{
    tokens.push(
        token,
        spot.at as u32,
        (spot.at + n) as u32,
        spot.line(),
        spot.column(),
    )
}

/// Whether the token is a name of more than 255 bytes.
fn is_long_name(token: TokenKind, n: usize) -> bool
    ensures { result ≡ specs.is_long_name token n }
{
    matches!(token, TokenKind::Name) && 255 < n
}

/// The refusal of a flaw at this byte.
pub fn refusal_at(flaw: Flaw, file: u32, bytes: &[u8], at: usize) -> Refusal
    requires { at ≤ length bytes.now }
    ensures { result ≡ specs.refusal_of file bytes.now flaw at }
{
    let place = place_of(file, bytes, at);
    Refusal::at(flaw.code(), place, Shown::Nothing)
}
