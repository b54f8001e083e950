//! Which operator may follow what.
ghost use Rattle.std.specs.Prelude.{◌≡◌, ◌&&◌, ◌||◌};
ghost use Rattle.floyd_termread_tables.specs.Operators as t;
ghost use Rattle.floyd_cparse_tokens.specs.Tokens.{is_there};

use crate::values::{Class, End, Kind, LinkStart, Want};
use floyd_lex::{Punctuator, TokenKind};
use floyd_termread_tokens::Seen;
use floyd_termread_trees::{FormulaWord, Infix, Word};

fn mark_infix(kind: TokenKind) -> Option<Infix>
    ensures { result ≡ t.mark_infix kind }
{
    match kind {
        TokenKind::Punctuator(Punctuator::ColonColon) => Some(Infix::Cons),
        TokenKind::Punctuator(Punctuator::PlusPlus) => Some(Infix::Append),
        TokenKind::Punctuator(Punctuator::Plus) => Some(Infix::Add),
        TokenKind::Punctuator(Punctuator::Minus) => Some(Infix::Sub),
        TokenKind::Punctuator(Punctuator::Star) => Some(Infix::Mul),
        TokenKind::Punctuator(Punctuator::Equal) => Some(Infix::Equal),
        TokenKind::Punctuator(Punctuator::LessGreater) => Some(Infix::Unequal),
        TokenKind::Punctuator(Punctuator::LessEqual) => Some(Infix::AtMost),
        TokenKind::Punctuator(Punctuator::Less) => Some(Infix::Less),
        TokenKind::Punctuator(Punctuator::GreaterEqual) => Some(Infix::AtLeast),
        TokenKind::Punctuator(Punctuator::Greater) => Some(Infix::Greater),
        TokenKind::Punctuator(Punctuator::Arrow) => Some(Infix::Implies),
        _ => None,
    }
}

fn word_infix(word: Option<Word>) -> Option<Infix>
    ensures { result ≡ t.word_infix word }
{
    match word {
        Some(Word::Formula(FormulaWord::Or)) => Some(Infix::Or),
        Some(Word::Formula(FormulaWord::And)) => Some(Infix::And),
        _ => None,
    }
}

fn infix_of(token: &Seen<'_>) -> Option<Infix>
    ensures { result ≡ t.infix_of token.now }
{
    match mark_infix(token.kind()) {
        Some(op) => Some(op),
        None => word_infix(token.word()),
    }
}

fn is_connective(op: Infix) -> bool
    ensures { result ≡ t.is_connective op }
{
    match op {
        Infix::Implies | Infix::Or | Infix::And => true,
        _ => false,
    }
}

fn is_relation(op: Infix) -> bool
    ensures { result ≡ t.is_relation op }
{
    match op {
        Infix::Equal
        | Infix::Unequal
        | Infix::AtMost
        | Infix::Less
        | Infix::AtLeast
        | Infix::Greater => true,
        _ => false,
    }
}

impl Kind {
    pub fn is_formula(self) -> bool
        ensures { result ≡ t.is_formula self }
    {
        match self {
            Kind::Related | Kind::Formula => true,
            _ => false,
        }
    }

    fn may_relate(self) -> bool
        ensures { result ≡ t.may_relate self }
    {
        match self {
            Kind::Open | Kind::Side => true,
            _ => false,
        }
    }

    fn ends_with_term(self) -> bool
        ensures { result ≡ t.ends_with_term self }
    {
        match self {
            Kind::Formula | Kind::Other => false,
            _ => true,
        }
    }

    pub fn must_relate(self) -> bool
        ensures { result ≡ t.must_relate self }
    {
        match self {
            Kind::Side => true,
            _ => false,
        }
    }

    fn allows(self, op: Infix) -> bool
        ensures { result ≡ t.allows self op }
    {
        if is_connective(op) {
            self.is_formula()
        } else if is_relation(op) {
            self.may_relate()
        } else {
            self.ends_with_term()
        }
    }
}

/// The operator that a token is behind what was read so far.
fn infix_for(kind: Kind, token: &Seen<'_>) -> Option<Infix>
    ensures { result ≡ t.infix_for kind token.now }
{
    match infix_of(token) {
        Some(op) if kind.allows(op) => Some(op),
        _ => None,
    }
}

/// It is an operator behind what was read so far.
pub fn is_infix(kind: Kind, token: &Seen<'_>) -> bool
    ensures { result ≡ is_there (t.infix_for kind token.now) }
{
    infix_for(kind, token).is_some()
}

pub fn link_start(kind: Kind, token: &Seen<'_>) -> Option<LinkStart>
    ensures { result ≡ t.link_at token.now.place (t.infix_for kind token.now) }
{
    match infix_for(kind, token) {
        Some(op) => Some(LinkStart {
            op,
            place: token.place(),
        }),
        None => None,
    }
}

/// It may go on with what ends so.
pub fn goes_on(end: End, token: &Seen<'_>) -> bool
    ensures { result ≡ t.goes_on end token.now }
{
    (end.bare && token.is_mark(Punctuator::OpenParen)) || is_infix(end.kind, token)
}

pub fn want_behind(op: Infix) -> Want
    ensures { result ≡ t.want_behind op }
{
    if is_connective(op) {
        Want::Formula
    } else {
        Want::Term
    }
}

pub fn kind_behind(kind: Kind, op: Infix, right: Kind) -> Kind
    ensures { result ≡ t.kind_behind kind op right }
{
    if is_connective(op) {
        right
    } else if is_relation(op) {
        Kind::Related
    } else {
        kind
    }
}

fn term_kind(want: Want) -> Kind
    ensures { result ≡ t.term_kind want }
{
    match want {
        Want::Term => Kind::Term,
        Want::Formula => Kind::Side,
        Want::Either => Kind::Open,
        _ => Kind::Other,
    }
}

/// What an operand is where so much is wanted.
pub fn kind_of(want: Want, class: Class) -> Kind
    ensures { result ≡ t.kind_of want class }
{
    match class {
        Class::Term => term_kind(want),
        Class::Formula => Kind::Formula,
        Class::Other => Kind::Other,
    }
}
