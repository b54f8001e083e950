/// What a file is, which decides how its bytes are cut.
#[derive(Clone, Copy, PartialEq, Eq, Debug)]
pub enum FileKind {
    /// A source of C, as a preprocessor leaves it.
    Source,
    /// A specification.
    Spec,
    /// A script of proofs.
    Script,
}

/// A word of C that is no name: those that the grammar of C read here writes, those that begin what it leaves out, and
/// `case` and `default`. A specification and a script have no keywords: there every word is a name.
#[derive(Clone, Copy, PartialEq, Eq, Debug)]
pub enum Keyword {
    Typedef,
    Extern,
    Const,
    Void,
    Struct,
    If,
    Else,
    While,
    Do,
    For,
    Break,
    Continue,
    Return,
    Char,
    Short,
    Int,
    Long,
    Signed,
    Unsigned,
    Sizeof,
    Case,
    Default,
    Float,
    Double,
    Union,
    Enum,
    Static,
    Volatile,
    Register,
    Inline,
    Restrict,
    Goto,
    Switch,
    Asm,
    /// `_Bool`
    Bool,
}

/// A punctuation mark. The first 46 are those of C, of which specifications and scripts have some; the last four are
/// theirs alone.
#[derive(Clone, Copy, PartialEq, Eq, Debug)]
pub enum Punctuator {
    /// `(`
    OpenParen,
    /// `)`
    CloseParen,
    /// `[`
    OpenBracket,
    /// `]`
    CloseBracket,
    /// `{`
    OpenBrace,
    /// `}`
    CloseBrace,
    /// `.`
    Dot,
    /// `->`
    Arrow,
    /// `++`
    PlusPlus,
    /// `--`
    MinusMinus,
    /// `&`
    Ampersand,
    /// `*`
    Star,
    /// `+`
    Plus,
    /// `-`
    Minus,
    /// `~`
    Tilde,
    /// `!`
    Exclamation,
    /// `/`
    Slash,
    /// `%`
    Percent,
    /// `<<`
    ShiftLeft,
    /// `>>`
    ShiftRight,
    /// `<`
    Less,
    /// `>`
    Greater,
    /// `<=`
    LessEqual,
    /// `>=`
    GreaterEqual,
    /// `==`
    EqualEqual,
    /// `!=`
    NotEqual,
    /// `^`
    Caret,
    /// `|`
    Bar,
    /// `&&`
    AndAnd,
    /// `||`
    BarBar,
    /// `?`
    Question,
    /// `:`
    Colon,
    /// `;`
    Semicolon,
    /// `...`
    Ellipsis,
    /// `=`
    Equal,
    /// `*=`
    StarEqual,
    /// `/=`
    SlashEqual,
    /// `%=`
    PercentEqual,
    /// `+=`
    PlusEqual,
    /// `-=`
    MinusEqual,
    /// `<<=`
    ShiftLeftEqual,
    /// `>>=`
    ShiftRightEqual,
    /// `&=`
    AmpersandEqual,
    /// `^=`
    CaretEqual,
    /// `|=`
    BarEqual,
    /// `,`
    Comma,
    /// `::`
    ColonColon,
    /// `<>`
    LessGreater,
    /// `=>`
    FatArrow,
    /// `<-`
    LeftArrow,
}

/// The type of a literal: in C the first of its list that holds the value, elsewhere none.
#[derive(Clone, Copy, PartialEq, Eq, Debug)]
pub enum LiteralType {
    Int,
    UnsignedInt,
    Long,
    UnsignedLong,
    /// A number of a specification or a script, which is below 2 ^ 126.
    Untyped,
}

/// What a token is. A name's text is the slice of its span; a literal has its type and its value. A character constant
/// is a literal of type `Int`, whose value is its character's code.
#[derive(Clone, Copy, PartialEq, Eq, Debug)]
pub enum TokenKind {
    Name,
    Keyword(Keyword),
    Punctuator(Punctuator),
    Literal(LiteralType, u128),
    /// From `"` to `"`, both with it. No grammar has one, but C's names it in a refusal.
    StringLiteral,
}
