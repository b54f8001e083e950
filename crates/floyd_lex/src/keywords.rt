ghost use Rattle.std.specs.Prelude.{◌≡◌};
ghost use Rattle.floyd_lex.specs.Keywords as specs;

use crate::kinds::Keyword;

/// The keyword that a word of C is, if it is one.
#[tactic(auto, unfolding(crate::specs::Keywords::keyword_of))]
pub fn keyword_of(word: &[u8]) -> Option<Keyword>
    ensures { result ≡ specs.keyword_of word.now }
{
    if let Some(k) = grammar_word(word) {
        return Some(k);
    }
    if let Some(k) = integer_word(word) {
        return Some(k);
    }
    left_out_word(word)
}

fn grammar_word(word: &[u8]) -> Option<Keyword>
    ensures { result ≡ specs.keyword_in specs.grammar_words word.now }
{
    match word {
        b"typedef" => Some(Keyword::Typedef),
        b"extern" => Some(Keyword::Extern),
        b"const" => Some(Keyword::Const),
        b"void" => Some(Keyword::Void),
        b"struct" => Some(Keyword::Struct),
        b"if" => Some(Keyword::If),
        b"else" => Some(Keyword::Else),
        b"while" => Some(Keyword::While),
        b"do" => Some(Keyword::Do),
        b"for" => Some(Keyword::For),
        b"break" => Some(Keyword::Break),
        b"continue" => Some(Keyword::Continue),
        b"return" => Some(Keyword::Return),
        b"sizeof" => Some(Keyword::Sizeof),
        b"case" => Some(Keyword::Case),
        b"default" => Some(Keyword::Default),
        _ => None,
    }
}

fn integer_word(word: &[u8]) -> Option<Keyword>
    ensures { result ≡ specs.keyword_in specs.integer_words word.now }
{
    match word {
        b"char" => Some(Keyword::Char),
        b"short" => Some(Keyword::Short),
        b"int" => Some(Keyword::Int),
        b"long" => Some(Keyword::Long),
        b"signed" => Some(Keyword::Signed),
        b"unsigned" => Some(Keyword::Unsigned),
        _ => None,
    }
}

fn left_out_word(word: &[u8]) -> Option<Keyword>
    ensures { result ≡ specs.keyword_in specs.left_out_words word.now }
{
    match word {
        b"float" => Some(Keyword::Float),
        b"double" => Some(Keyword::Double),
        b"union" => Some(Keyword::Union),
        b"enum" => Some(Keyword::Enum),
        b"static" => Some(Keyword::Static),
        b"volatile" => Some(Keyword::Volatile),
        b"register" => Some(Keyword::Register),
        b"inline" => Some(Keyword::Inline),
        b"restrict" => Some(Keyword::Restrict),
        b"goto" => Some(Keyword::Goto),
        b"switch" => Some(Keyword::Switch),
        b"asm" => Some(Keyword::Asm),
        b"_Bool" => Some(Keyword::Bool),
        _ => None,
    }
}
