//! The tokens of a file from one of them on.
ghost use Rattle.std.specs.Prelude.{◌≡◌, [], ◌∷◌, drop, MatchOption, IfSome};
ghost use Rattle.floyd_lex.specs.Token.{tokens_in};
ghost use Rattle.floyd_check_stub.specs.Forms.{texts};
ghost use Rattle.floyd_check_stub.specs.LeftClauses.{left, Begins, IsPlaced};

use floyd_lex::Tokens;
use floyd_text::Place;

/// The tokens of a file from the one at `at` on, and the file's bytes.
#[derive(Clone, Copy)]
pub struct Left<'a> {
    bytes: &'a [u8],
    tokens: &'a Tokens,
    at: usize,
}

/// The text of the first token, and the tokens behind it.
#[derive(Clone, Copy)]
pub struct First<'a> {
    pub text: &'a [u8],
    pub rest: Left<'a>,
}

/// The same with the token's place.
#[derive(Clone, Copy)]
pub struct Placed<'a> {
    pub text: &'a [u8],
    pub place: Place,
    pub rest: Left<'a>,
}

/// All the tokens of a file with these bytes.
#[tactic(auto, unfolding(crate::specs::LeftClauses::left))]
pub fn all_of<'a>(bytes: &'a [u8], tokens: &'a Tokens) -> Left<'a>
    ensures { left result ≡ tokens_in bytes.now tokens.now }
{
    Left {
        bytes,
        tokens,
        at: 0,
    }
}

/// The first token, and none behind the last.
pub fn first_token(tokens: Left<'_>) -> Option<First<'_>>
    ensures tokens { MatchOption result (left tokens.entry ≡ []) (λ f. Begins (left tokens.entry) f.text.now (left f.rest)) }
    ensures texts { MatchOption result (texts (left tokens.entry) ≡ []) (λ f. texts (left tokens.entry) ≡ f.text.now ∷ texts (left f.rest)) }
{
    if tokens.at >= tokens.tokens.len() {
        return None;
    }
    Some(First {
        text: tokens.tokens.text(tokens.bytes, tokens.at),
        rest: from_on(tokens, tokens.at + 1),
    })
}

/// The first token with its place, and none behind the last.
pub fn placed_token(tokens: Left<'_>) -> Option<Placed<'_>>
    ensures tokens { MatchOption result (left tokens.entry ≡ []) (λ p. Begins (left tokens.entry) p.text.now (left p.rest)) }
    ensures place { IfSome result (λ p. IsPlaced (left tokens.entry) p.place) }
{
    if tokens.at >= tokens.tokens.len() {
        return None;
    }
    Some(Placed {
        text: tokens.tokens.text(tokens.bytes, tokens.at),
        place: tokens.tokens.place(tokens.at),
        rest: from_on(tokens, tokens.at + 1),
    })
}

/// The tokens of the same file from the one at `at` on.
#[tactic(auto, unfolding(crate::specs::LeftClauses::left))]
fn from_on(tokens: Left<'_>, at: usize) -> Left<'_>
    ensures { left result ≡ drop at (tokens_in tokens.entry.bytes.now tokens.entry.tokens.now) }
{
    Left {
        bytes: tokens.bytes,
        tokens: tokens.tokens,
        at,
    }
}
