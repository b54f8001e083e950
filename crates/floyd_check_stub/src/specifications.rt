//! The specification of a `main` of the first form.
ghost use Rattle.std.specs.Prelude.{◌≡◌, ℕ, List};
ghost use Rattle.floyd_lex.specs.Token.{Token, tokens_in};
ghost use Rattle.floyd_check_stub.specs.Forms.{IsSpec, ReadsAs, texts};
ghost use Rattle.floyd_check_stub.specs.LeftClauses.{left};
ghost use Rattle.floyd_check_stub.specs.ReadingClauses.{spec_of};

use crate::left::{Left, all_of, first_token};
use crate::word::{after_all, int_of};
use floyd_lex::Tokens;

const HEAD: [&[u8]; 17] = [
    b"DECLARE",
    b"main",
    b"PRE",
    b"[",
    b"]",
    b"MAIN_PRE",
    b"POST",
    b"[",
    b"int",
    b"]",
    b"PROP",
    b"(",
    b")",
    b"RETURN",
    b"(",
    b"Vint",
    b"(",
];

const END: [&[u8]; 6] = [b")", b")", b"SEP", b"(", b")", b";"];

/// Reads the tokens of a specification file that says of `main` alone that it returns this number, and none where they
/// have another form. The bytes are those of the tokens' file.
pub fn read_spec(bytes: &[u8], tokens: &Tokens) -> Option<u32>
    ensures { ReadsAs (IsSpec (tokens_in bytes.now tokens.now)) result }
{
    number_of(all_of(bytes, tokens))
}

fn number_of(tokens: Left<'_>) -> Option<u32>
    ensures { result ≡ spec_of (texts (left tokens.entry)) }
{
    let number = first_token(after_all(tokens, HEAD.as_slice())?)?;
    let end = after_all(number.rest, END.as_slice())?;
    match first_token(end) {
        None => int_of(number.text),
        Some(_) => None,
    }
}

/// Tokens are the specification of one number at most.
pub fn one_spec()
    ensures { (ts : List Token) (m n : ℕ) → IsSpec ts m → IsSpec ts n → m ≡ n }
{}
