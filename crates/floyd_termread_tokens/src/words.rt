//! The words of the grammar of specifications.
ghost use Rattle.std.specs.Prelude.{◌≡◌};
ghost use Rattle.std.specs.List.{list_all};
ghost use Rattle.floyd_termread_tokens.specs.Words as specs;

use floyd_int::IntKind;
use floyd_termread_trees::{FormulaWord, SortWord, TermWord, TypeWord, Word};
use floyd_tree_sorts::Operator;

/// The word that a text is, if it is one.
#[tactic(auto, unfolding(crate::specs::Words::word_of))]
pub fn word_of(text: &[u8]) -> Option<Word>
    ensures { result ≡ specs.word_of text.now }
{
    if let Some(word) = sort_word(text) {
        return Some(word);
    }
    if let Some(word) = type_word(text) {
        return Some(word);
    }
    if let Some(word) = formula_word(text) {
        return Some(word);
    }
    if let Some(word) = value_word(text) {
        return Some(word);
    }
    if let Some(word) = number_word(text) {
        return Some(word);
    }
    if let Some(word) = other_term_word(text) {
        return Some(word);
    }
    if let Some(word) = item_word(text) {
        return Some(word);
    }
    assertion_word(text)
}

fn sort_word(text: &[u8]) -> Option<Word>
    ensures { result ≡ specs.word_in specs.sort_words text.now }
{
    match text {
        b"Z" => Some(Word::Sort(SortWord::Z)),
        b"val" => Some(Word::Sort(SortWord::Val)),
        b"list" => Some(Word::Sort(SortWord::List)),
        b"tree" => Some(Word::Sort(SortWord::Tree)),
        b"prod" => Some(Word::Sort(SortWord::Prod)),
        _ => None,
    }
}

fn type_word(text: &[u8]) -> Option<Word>
    ensures { result ≡ specs.word_in specs.type_words text.now }
{
    match text {
        b"void" => Some(Word::Type(TypeWord::Void)),
        b"char" => Some(Word::Type(TypeWord::Int(IntKind::I8))),
        b"uchar" => Some(Word::Type(TypeWord::Int(IntKind::U8))),
        b"short" => Some(Word::Type(TypeWord::Int(IntKind::I16))),
        b"ushort" => Some(Word::Type(TypeWord::Int(IntKind::U16))),
        b"int" => Some(Word::Type(TypeWord::Int(IntKind::I32))),
        b"uint" => Some(Word::Type(TypeWord::Int(IntKind::U32))),
        b"long" => Some(Word::Type(TypeWord::Int(IntKind::I64))),
        b"ulong" => Some(Word::Type(TypeWord::Int(IntKind::U64))),
        b"ptr" => Some(Word::Type(TypeWord::Ptr)),
        b"struct" => Some(Word::Type(TypeWord::Struct)),
        b"array" => Some(Word::Type(TypeWord::Array)),
        b"fn" => Some(Word::Type(TypeWord::Fn)),
        _ => None,
    }
}

fn formula_word(text: &[u8]) -> Option<Word>
    ensures { result ≡ specs.word_in specs.formula_words text.now }
{
    match text {
        b"or" => Some(Word::Formula(FormulaWord::Or)),
        b"and" => Some(Word::Formula(FormulaWord::And)),
        b"not" => Some(Word::Formula(FormulaWord::Not)),
        b"forall" => Some(Word::Formula(FormulaWord::Forall)),
        b"exists" => Some(Word::Formula(FormulaWord::Exists)),
        b"True" => Some(Word::Formula(FormulaWord::True)),
        b"False" => Some(Word::Formula(FormulaWord::False)),
        b"isptr" => Some(Word::Formula(FormulaWord::IsPtr)),
        b"defined" => Some(Word::Formula(FormulaWord::Defined)),
        b"hasty" => Some(Word::Formula(FormulaWord::Hasty)),
        b"compatible" => Some(Word::Formula(FormulaWord::Compatible)),
        b"func_ptr" => Some(Word::Formula(FormulaWord::FuncPtr)),
        _ => None,
    }
}

fn value_word(text: &[u8]) -> Option<Word>
    ensures { result ≡ specs.word_in specs.value_words text.now }
{
    match text {
        b"Vundef" => Some(Word::Term(TermWord::Operator(Operator::Vundef))),
        b"Vint" => Some(Word::Term(TermWord::Operator(Operator::Vint))),
        b"Vlong" => Some(Word::Term(TermWord::Operator(Operator::Vlong))),
        b"nullval" => Some(Word::Term(TermWord::Operator(Operator::Nullval))),
        b"ptr_add" => Some(Word::Term(TermWord::Operator(Operator::PtrAdd))),
        b"vints" => Some(Word::Term(TermWord::Operator(Operator::Vints))),
        b"vlongs" => Some(Word::Term(TermWord::Operator(Operator::Vlongs))),
        b"fst" => Some(Word::Term(TermWord::Operator(Operator::Fst))),
        b"snd" => Some(Word::Term(TermWord::Operator(Operator::Snd))),
        b"len" => Some(Word::Term(TermWord::Operator(Operator::Len))),
        b"nth" => Some(Word::Term(TermWord::Operator(Operator::Nth))),
        b"upd" => Some(Word::Term(TermWord::Operator(Operator::Upd))),
        b"rev" => Some(Word::Term(TermWord::Operator(Operator::Rev))),
        b"sum" => Some(Word::Term(TermWord::Operator(Operator::Sum))),
        b"sublist" => Some(Word::Term(TermWord::Operator(Operator::Sublist))),
        b"repeat" => Some(Word::Term(TermWord::Operator(Operator::Repeat))),
        b"Node" => Some(Word::Term(TermWord::Operator(Operator::Node))),
        _ => None,
    }
}

fn number_word(text: &[u8]) -> Option<Word>
    ensures { result ≡ specs.word_in specs.number_words text.now }
{
    match text {
        b"quot" => Some(Word::Term(TermWord::Operator(Operator::Quot))),
        b"rem" => Some(Word::Term(TermWord::Operator(Operator::Rem))),
        b"band" => Some(Word::Term(TermWord::Operator(Operator::Band))),
        b"bor" => Some(Word::Term(TermWord::Operator(Operator::Bor))),
        b"bxor" => Some(Word::Term(TermWord::Operator(Operator::Bxor))),
        b"bnot" => Some(Word::Term(TermWord::Operator(Operator::Bnot))),
        b"shl" => Some(Word::Term(TermWord::Operator(Operator::Shl))),
        b"shr" => Some(Word::Term(TermWord::Operator(Operator::Shr))),
        b"eqz" => Some(Word::Term(TermWord::Operator(Operator::Eqz))),
        b"ltz" => Some(Word::Term(TermWord::Operator(Operator::Ltz))),
        b"lez" => Some(Word::Term(TermWord::Operator(Operator::Lez))),
        b"eqv" => Some(Word::Term(TermWord::Operator(Operator::Eqv))),
        _ => None,
    }
}

fn other_term_word(text: &[u8]) -> Option<Word>
    ensures { result ≡ specs.word_in specs.other_term_words text.now }
{
    match text {
        b"nil" => Some(Word::Term(TermWord::Nil)),
        b"Leaf" => Some(Word::Term(TermWord::Leaf)),
        b"gv" => Some(Word::Term(TermWord::Gv)),
        b"lv" => Some(Word::Term(TermWord::Lv)),
        b"signed" => Some(Word::Term(TermWord::Signed)),
        b"unsigned" => Some(Word::Term(TermWord::Unsigned)),
        b"default" => Some(Word::Term(TermWord::Default)),
        _ => None,
    }
}

fn item_word(text: &[u8]) -> Option<Word>
    ensures { result ≡ specs.word_in specs.item_words text.now }
{
    match text {
        b"IMPORT" => Some(Word::Item),
        b"FUN" => Some(Word::Item),
        b"PRED" => Some(Word::Item),
        b"LEMMA" => Some(Word::Item),
        b"WITH" => Some(Word::Item),
        b"GIVES" => Some(Word::Item),
        b"SPEC" => Some(Word::Item),
        b"DECLARE" => Some(Word::Item),
        b"EXTERN" => Some(Word::Item),
        b"PRE" => Some(Word::Item),
        b"POST" => Some(Word::Item),
        b"MAIN_PRE" => Some(Word::Item),
        _ => None,
    }
}

fn assertion_word(text: &[u8]) -> Option<Word>
    ensures { result ≡ specs.word_in specs.assertion_words text.now }
{
    match text {
        b"EX" => Some(Word::Item),
        b"PROP" => Some(Word::Item),
        b"LOCAL" => Some(Word::Item),
        b"SEP" => Some(Word::Item),
        b"PARAMS" => Some(Word::Item),
        b"GLOBALS" => Some(Word::Item),
        b"RETURN" => Some(Word::Item),
        b"temp" => Some(Word::Item),
        b"data_at" => Some(Word::Item),
        b"data_at_" => Some(Word::Item),
        b"field_at" => Some(Word::Item),
        b"padding" => Some(Word::Item),
        b"valid" => Some(Word::Item),
        b"TT" => Some(Word::Item),
        _ => None,
    }
}

/// It is `H` and digits alone, as the hypotheses of a goal are called.
pub fn is_hypothesis(text: &[u8]) -> bool
    ensures { result ≡ specs.is_hypothesis text.now }
{
    match text {
        [b, digits @ ..] => *b == b'H' && 1 <= digits.len() && are_digits(digits),
        [] => false,
    }
}

fn is_digit(b: u8) -> bool
    ensures { result ≡ specs.is_digit b }
{
    matches!(b, b'0'..=b'9')
}

fn are_digits(text: &[u8]) -> bool
    ensures { result ≡ list_all specs.is_digit text.now }
{
    text.iter().all(|b| is_digit(*b))
}

/// It is no word, and not what a hypothesis is called.
pub fn is_free(text: &[u8]) -> bool
    ensures { result ≡ specs.is_free text.now }
{
    word_of(text).is_none() && !is_hypothesis(text)
}
