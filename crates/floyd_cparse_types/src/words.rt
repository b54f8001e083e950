//! The words of an integer type.
ghost use Rattle.std.specs.Prelude.{◌≡◌, Some};
ghost use Rattle.floyd_lex.specs.declared.kinds.TokenKind.TheVariants as k;
ghost use Rattle.floyd_cparse_types.specs.Types as t;

use crate::values::{IntWords, Sign, Size};
use floyd_cparse_tokens::Sight;
use floyd_int::IntKind;
use floyd_lex::{Keyword, TokenKind};

impl IntWords {
    pub fn new() -> IntWords
        ensures { result ≡ t.no_words }
    {
        IntWords {
            sign: Sign::Default,
            size: Size::Default,
            int: false,
        }
    }

    /// With one more of them, where it may stand beside them.
    pub fn with(self, sight: &Sight<'_>) -> Option<IntWords>
        ensures { result ≡ t.with_word sight.now.token.kind self }
    {
        match sight.kind() {
            TokenKind::Keyword(word) => self.with_word(word),
            _ => None,
        }
    }

    fn with_word(self, word: Keyword) -> Option<IntWords>
        ensures { result ≡ t.with_word (k.Keyword word) self }
    {
        match word {
            Keyword::Signed => self.with_sign(Sign::Signed),
            Keyword::Unsigned => self.with_sign(Sign::Unsigned),
            Keyword::Char if self.int => None,
            Keyword::Char => self.with_size(Size::Char),
            Keyword::Short => self.with_size(Size::Short),
            Keyword::Int => self.with_int(),
            Keyword::Long => self.with_long(),
            _ => None,
        }
    }

    fn with_sign(self, sign: Sign) -> Option<IntWords>
        ensures { result ≡ t.with_sign sign self }
    {
        match self.sign {
            Sign::Default => Some(IntWords { sign, ..self }),
            Sign::Signed | Sign::Unsigned => None,
        }
    }

    fn with_size(self, size: Size) -> Option<IntWords>
        ensures { result ≡ t.with_size size self.size self }
    {
        match self.size {
            Size::Default => Some(IntWords { size, ..self }),
            _ => None,
        }
    }

    fn with_int(self) -> Option<IntWords>
        ensures { result ≡ t.with_int self.size self }
    {
        match self.size {
            Size::Char => None,
            _ if self.int => None,
            _ => Some(IntWords { int: true, ..self }),
        }
    }

    fn with_long(self) -> Option<IntWords>
        ensures { result ≡ t.with_long self.size self }
    {
        match self.size {
            Size::Default => Some(IntWords {
                size: Size::Long,
                ..self
            }),
            Size::Long => Some(IntWords {
                size: Size::LongLong,
                ..self
            }),
            _ => None,
        }
    }

    /// The kind that they say.
    pub fn kind(self) -> IntKind
        ensures { result ≡ t.kind_of_words self }
    {
        match (self.sign, self.size) {
            (Sign::Unsigned, Size::Default) => IntKind::U32,
            (Sign::Unsigned, Size::Char) => IntKind::U8,
            (Sign::Unsigned, Size::Short) => IntKind::U16,
            (Sign::Unsigned, _) => IntKind::U64,
            (_, Size::Default) => IntKind::I32,
            (_, Size::Char) => IntKind::I8,
            (_, Size::Short) => IntKind::I16,
            _ => IntKind::I64,
        }
    }
}
