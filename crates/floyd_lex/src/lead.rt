ghost use Rattle.std.specs.Prelude.{◌≡◌};
ghost use Rattle.floyd_lex.specs.Cuts.{code_of};

use crate::kinds::TokenKind;
use floyd_text::Code;

/// Why a file is not cut into tokens.
#[derive(Clone, Copy)]
pub enum Flaw {
    /// A byte that begins no token.
    BadByte,
    /// A comment that does not end.
    OpenComment,
    /// A literal that something else directly follows, or that is too great.
    BadNumber,
    /// One token more than a file may have.
    TooManyTokens,
    /// A name of more than 255 bytes.
    LongName,
}

impl Flaw {
    /// The code of its refusal.
    pub fn code(self) -> Code
        ensures { result ≡ code_of self }
    {
        match self {
            Flaw::BadByte => Code::BadByte,
            Flaw::OpenComment => Code::OpenComment,
            Flaw::BadNumber => Code::BadNumber,
            Flaw::TooManyTokens => Code::TooManyTokens,
            Flaw::LongName => Code::LongName,
        }
    }
}

/// What stands at the front of the bytes that are left: nothing, so many bytes that belong to no token, a token of so
/// many bytes, or a flaw so many bytes further on.
#[derive(Clone, Copy)]
pub enum Lead {
    End,
    Skip(usize),
    Piece(TokenKind, usize),
    Bad(Flaw, usize),
}
