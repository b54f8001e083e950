//! What an operand begins with.
ghost use Rattle.std.specs.Prelude.{◌≡◌, IfOk, Some};
ghost use Rattle.floyd_lex.specs.declared.kinds.TokenKind.TheVariants as k;
ghost use Rattle.floyd_termread_tables.specs.Tables as t;
ghost use Rattle.floyd_termread_tables.specs.declared.values.Start.TheVariants as start;
ghost use Rattle.floyd_termread_tokens.specs.Words.{word_of};

use crate::values::{Class, Form, PrefixStart, Start, Want};
use floyd_lex::{Punctuator, TokenKind};
use floyd_termread_tokens::{Seen, is_free, is_hypothesis, word_of};
use floyd_termread_trees::{FormulaWord, Opening, TermWord, TypeWord, Word, Written};
use floyd_text::Place;
use floyd_tree_sorts::Operator;
use std::alloc::{AllocError, Global};

fn quantifier_of(place: Place, word: Option<Word>) -> Option<PrefixStart>
    ensures { result ≡ t.quantifier_of place word }
{
    match word {
        Some(Word::Formula(FormulaWord::Not)) => Some(PrefixStart::Not(place)),
        Some(Word::Formula(FormulaWord::Forall)) => Some(PrefixStart::Forall(place)),
        Some(Word::Formula(FormulaWord::Exists)) => Some(PrefixStart::Exists(place)),
        _ => None,
    }
}

/// The operator before an operand that a token is, where so much is wanted.
pub fn prefix_of(want: Want, minus: bool, token: &Seen<'_>) -> Option<PrefixStart>
    ensures { result ≡ t.prefix_of want minus token.now }
{
    if token.is_mark(Punctuator::Minus) {
        return if want.takes_terms() {
            Some(PrefixStart::Minus(token.place()))
        } else {
            None
        };
    }
    if want.takes_formulas() && !minus {
        quantifier_of(token.place(), token.word())
    } else {
        None
    }
}

fn is_constant(operator: Operator) -> bool
    ensures { result ≡ t.is_constant operator }
{
    match operator {
        Operator::Vundef | Operator::Nullval => true,
        _ => false,
    }
}

fn alone(word: Word, place: Place, class: Class) -> Option<Start>
    ensures { result ≡ t.alone word place class }
{
    Some(Start::Alone(Written::Word(word, place), class))
}

fn behind_word(word: Word, form: Form, class: Class, place: Place) -> Option<Start>
    ensures { result ≡ Some (start.Word word form class place) }
{
    Some(Start::Word(word, form, class, place))
}

fn term_start(place: Place, word: TermWord) -> Option<Start>
    ensures { result ≡ t.term_start place word }
{
    let whole = Word::Term(word);
    match word {
        TermWord::Operator(operator) if is_constant(operator) => alone(whole, place, Class::Term),
        TermWord::Nil | TermWord::Leaf => alone(whole, place, Class::Term),
        TermWord::Operator(_) | TermWord::Signed | TermWord::Unsigned => {
            behind_word(whole, Form::Terms, Class::Term, place)
        }
        TermWord::Gv | TermWord::Lv => behind_word(whole, Form::OneGiven, Class::Term, place),
        TermWord::Default => behind_word(whole, Form::OneType, Class::Term, place),
    }
}

fn formula_start(place: Place, word: FormulaWord) -> Option<Start>
    ensures { result ≡ t.formula_start place word }
{
    let whole = Word::Formula(word);
    match word {
        FormulaWord::True | FormulaWord::False => alone(whole, place, Class::Formula),
        FormulaWord::IsPtr | FormulaWord::Defined => {
            behind_word(whole, Form::OneTerm, Class::Formula, place)
        }
        FormulaWord::Hasty => behind_word(whole, Form::TypeTerm, Class::Formula, place),
        FormulaWord::Compatible => behind_word(whole, Form::TypePathTerm, Class::Formula, place),
        FormulaWord::FuncPtr => behind_word(whole, Form::FreeTerm, Class::Formula, place),
        _ => None,
    }
}

fn type_start(place: Place, word: TypeWord) -> Option<Start>
    ensures { result ≡ t.type_start place word }
{
    let whole = Word::Type(word);
    match word {
        TypeWord::Void | TypeWord::Int(_) => alone(whole, place, Class::Other),
        TypeWord::Ptr => behind_word(whole, Form::OneType, Class::Other, place),
        TypeWord::Struct => Some(Start::Struct(place)),
        TypeWord::Array => behind_word(whole, Form::TypeTerm, Class::Other, place),
        TypeWord::Fn => behind_word(whole, Form::Types, Class::Other, place),
    }
}

fn word_start(want: Want, minus: bool, place: Place, word: Word) -> Option<Start>
    ensures { result ≡ t.word_start want minus place word }
{
    match word {
        Word::Term(word) if want.takes_terms() => term_start(place, word),
        Word::Formula(word) if want.takes_formulas() && !minus => formula_start(place, word),
        Word::Type(word) if want.takes_types() => type_start(place, word),
        _ => None,
    }
}

fn lone_name(alloc: Global, token: &Seen<'_>) -> Result<Option<Start>, AllocError>
    ensures { IfOk result (λ x. x ≡ t.lone_name token.now.place token.now.text) }
{
    let name = Written::Name(token.identifier(alloc)?);
    Ok(Some(Start::Alone(name, Class::Other)))
}

fn name_or_word(
    alloc: Global,
    want: Want,
    minus: bool,
    token: &Seen<'_>,
) -> Result<Option<Start>, AllocError>
    ensures { IfOk result (λ x. x ≡ t.name_or_word want minus token.now.place token.now.text (word_of token.now.text)) }
{
    if let Some(word) = word_of(token.text()) {
        return Ok(word_start(want, minus, token.place(), word));
    }
    if want.takes_terms() && !is_hypothesis(token.text()) {
        Ok(Some(Start::Name(token.identifier(alloc)?)))
    } else {
        Ok(None)
    }
}

fn name_start(
    alloc: Global,
    want: Want,
    minus: bool,
    token: &Seen<'_>,
) -> Result<Option<Start>, AllocError>
    ensures { IfOk result (λ x. x ≡ t.name_start want minus token.now.place token.now.text) }
{
    match want {
        Want::Given => lone_name(alloc, token),
        Want::Free => {
            if is_free(token.text()) {
                lone_name(alloc, token)
            } else {
                Ok(None)
            }
        }
        _ => name_or_word(alloc, want, minus, token),
    }
}

fn parenthesis_form(want: Want, minus: bool) -> Form
    ensures { result ≡ t.parenthesis_form want minus }
{
    if want.takes_formulas() && !minus {
        Form::Parenthesis
    } else {
        Form::TermParenthesis
    }
}

fn bracket_start(want: Want, place: Place) -> Option<Start>
    ensures { result ≡ t.bracket_start want place }
{
    match want {
        Want::Path => Some(Start::Path(place)),
        _ => {
            if want.takes_terms() {
                Some(Start::Open(Opening::List, Form::List, Class::Term, place))
            } else {
                None
            }
        }
    }
}

fn mark_start(want: Want, minus: bool, place: Place, mark: Punctuator) -> Option<Start>
    ensures { result ≡ t.mark_start want minus place mark }
{
    match mark {
        Punctuator::OpenParen if want.takes_terms() => {
            let form = parenthesis_form(want, minus);
            Some(Start::Open(Opening::Parenthesis, form, Class::Term, place))
        }
        Punctuator::OpenBracket => bracket_start(want, place),
        _ => None,
    }
}

/// What an operand begins with that begins with this token, where so much is wanted.
pub fn start_of(
    alloc: Global,
    want: Want,
    minus: bool,
    token: &Seen<'_>,
) -> Result<Option<Start>, AllocError>
    ensures { IfOk result (λ x. x ≡ t.start_of want minus token.now) }
{
    match token.kind() {
        TokenKind::Name => name_start(alloc, want, minus, token),
        TokenKind::Literal(_, value) if want.takes_terms() => {
            let number = Written::Literal {
                value,
                place: token.place(),
            };
            Ok(Some(Start::Alone(number, Class::Term)))
        }
        TokenKind::Punctuator(mark) => Ok(mark_start(want, minus, token.place(), mark)),
        _ => Ok(None),
    }
}
