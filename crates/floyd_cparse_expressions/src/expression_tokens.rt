//! What is found in a token where an expression is read.
ghost use Rattle.std.specs.Prelude.{◌≡◌, ◌<◌, ◌^◌, ◌≤◌, ◌+◌, ◌&&◌, ◌||◌, not, nat_lt, length, IfOk, IsTrue};
ghost use Rattle.floyd_cparse_expressions.specs.Expressions as e;
ghost use Rattle.floyd_cparse_tokens.specs.Tokens.{is_there};
ghost use Rattle.floyd_cparse_expressions.specs.ExpressionClauses as r;
ghost use Rattle.floyd_grammar.specs.ParseClauses.{leads};

use crate::operators::{assignment_of, binary_op, member_op, prefix_op, step_op};
use crate::values::{
    Chain, Comma, Ending, Form, Infix, Operand, OperandStart, PostfixStart, PrefixStart, Prefixes,
};
use floyd_cparse_tokens::{LEFT_OUT, Reader, Sight, TypeNames, UNEXPECTED};
use floyd_lex::{Keyword, Punctuator};
use std::alloc::{AllocError, Global};

impl Form {
    fn is_wide(self) -> bool
        ensures { result ≡ e.is_wide self }
    {
        match self {
            Form::Wide => true,
            Form::Effect | Form::Unary => false,
        }
    }

    pub fn is_effect(self) -> bool
        ensures { result ≡ e.is_effect self }
    {
        match self {
            Form::Effect => true,
            Form::Unary | Form::Wide => false,
        }
    }
}

impl Ending {
    /// To what ends so nothing can be assigned.
    pub fn is_wide(self) -> bool
        ensures { result ≡ e.is_wide self.form }
    {
        self.form.is_wide()
    }
}

impl Comma {
    /// A `,` behind what ends so is left out of the profile.
    fn is_left_out(self, end: Ending) -> bool
        ensures { result ≡ e.is_comma_left_out self end }
    {
        match self {
            Comma::Separates => false,
            Comma::Plain => end.effect,
            Comma::LeftOut => true,
        }
    }

    /// What a `,` is inside `?` and `:`.
    pub fn inside(self) -> Comma
        ensures { result ≡ e.inside self }
    {
        match self {
            Comma::Separates | Comma::Plain => Comma::Plain,
            Comma::LeftOut => Comma::LeftOut,
        }
    }
}

fn is_postfix_op(sight: &Sight<'_>) -> bool
    ensures { result ≡ e.is_postfix_op sight.now }
{
    sight.is_mark(Punctuator::OpenBracket)
        || sight.is_mark(Punctuator::OpenParen)
        || member_op(sight).is_some()
        || step_op(sight).is_some()
}

/// It may go on with an unary expression that ends so.
fn goes_on_unary(sight: &Sight<'_>, end: Ending) -> bool
    ensures { result ≡ e.goes_on_unary end sight.now }
{
    is_postfix_op(sight) && !end.type_name
}

/// It may go on with an expression that ends so.
fn goes_on(sight: &Sight<'_>, end: Ending) -> bool
    ensures { result ≡ e.goes_on end sight.now }
{
    goes_on_unary(sight, end)
        || binary_op(sight).is_some()
        || sight.is_mark(Punctuator::Question)
        || (assignment_of(sight).is_some() && !end.is_wide())
}

fn is_separator(sight: &Sight<'_>, comma: Comma) -> bool
    ensures { result ≡ e.is_separator comma sight.now }
{
    match comma {
        Comma::Separates => sight.is_mark(Punctuator::Comma),
        Comma::Plain | Comma::LeftOut => false,
    }
}

fn behind_expression(sight: &Sight<'_>, comma: Comma, end: Ending) -> u8
    ensures { result ≡ e.behind_expression comma end sight.now }
{
    if (sight.is_mark(Punctuator::Comma) && comma.is_left_out(end))
        || (sight.is_mark(Punctuator::OpenBrace) && end.type_name)
    {
        LEFT_OUT
    } else {
        UNEXPECTED
    }
}

/// For what it is refused directly behind an unary expression.
pub(crate) fn after_unary(
    sight: &Sight<'_>,
    types: &TypeNames,
    comma: Comma,
    room: u32,
    end: Ending,
) -> u8
    ensures { result ≡ e.after_unary types.now comma room end sight.now }
{
    if goes_on_unary(sight, end) {
        UNEXPECTED
    } else {
        sight.blame(
            types,
            room,
            end.count as u64,
            behind_expression(sight, comma, end),
        )
    }
}

/// For what it is refused directly behind an expression.
pub fn after_expression(
    sight: &Sight<'_>,
    types: &TypeNames,
    comma: Comma,
    room: u32,
    end: Ending,
) -> u8
    ensures { result ≡ e.after_expression types.now comma room end sight.now }
{
    if goes_on(sight, end) || is_separator(sight, comma) {
        UNEXPECTED
    } else {
        sight.blame(
            types,
            room,
            end.count as u64,
            behind_expression(sight, comma, end),
        )
    }
}

pub(crate) fn prefix_start(sight: &Sight<'_>, types: &TypeNames) -> Option<PrefixStart>
    ensures { result ≡ e.start_of_prefix types.now sight.now }
{
    if sight.opens_type(types) {
        return Some(PrefixStart::Cast(sight.place()));
    }
    match (prefix_op(sight), step_op(sight)) {
        (Some(op), _) => Some(PrefixStart::Op(op, sight.place())),
        (None, Some(op)) => Some(PrefixStart::Step(op, sight.place())),
        (None, None) => None,
    }
}

/// It is a prefix that is not too deep.
pub(crate) fn is_prefix_at(sight: &Sight<'_>, types: &TypeNames, room: u32, count: u64) -> bool
    ensures { result ≡ (is_there (e.start_of_prefix types.now sight.now) && not (nat_lt room count)) }
{
    prefix_start(sight, types).is_some() && count <= room as u64
}

/// For what it is refused that is no operand, where it may stand behind a cast.
pub(crate) fn behind_prefix(sight: &Sight<'_>, cast: bool) -> u8
    ensures { result ≡ e.behind_prefix cast sight.now }
{
    if cast && sight.is_mark(Punctuator::OpenBrace) {
        LEFT_OUT
    } else {
        UNEXPECTED
    }
}

pub(crate) fn operand_start(
    alloc: Global,
    sight: &Sight<'_>,
    types: &TypeNames,
) -> Result<Option<OperandStart>, AllocError>
    ensures { IfOk result (λ x. x ≡ e.start_of_operand types.now sight.now) }
{
    if sight.is_plain(types) {
        Ok(Some(OperandStart::Name(sight.identifier(alloc)?)))
    } else if sight.is_mark(Punctuator::OpenParen) {
        Ok(Some(OperandStart::Open(sight.place())))
    } else if sight.is_word(Keyword::Sizeof) && sight.precedes_type(types) {
        Ok(Some(OperandStart::SizeOf(sight.place())))
    } else {
        match sight.literal() {
            Some(literal) => Ok(Some(OperandStart::Literal(literal))),
            None => Ok(None),
        }
    }
}

pub(crate) fn postfix_start(sight: &Sight<'_>) -> Option<PostfixStart>
    ensures { result ≡ e.start_of_postfix sight.now }
{
    if sight.is_mark(Punctuator::OpenBracket) {
        return Some(PostfixStart::Index(sight.place()));
    }
    if sight.is_mark(Punctuator::OpenParen) {
        return Some(PostfixStart::Call(sight.place()));
    }
    match (member_op(sight), step_op(sight)) {
        (Some(op), _) => Some(PostfixStart::Member(op, sight.place())),
        (None, Some(op)) => Some(PostfixStart::Step(op, sight.place())),
        (None, None) => None,
    }
}

/// A binary operator of the level.
pub(crate) fn infix(sight: &Sight<'_>, level: u32) -> Option<Infix>
    ensures { result ≡ e.infix_at level sight.now.token.place (e.binary_op sight.now.token.kind) }
{
    match binary_op(sight) {
        Some((of, op)) if of == level => Some(Infix {
            op,
            place: sight.place(),
        }),
        _ => None,
    }
}

/// A prefix stands next that is not too deep.
pub(crate) fn leads_prefix(
    reader: &Reader<'_>,
    types: &TypeNames,
    room: u32,
    all: &Prefixes,
) -> bool
    requires { length all.now.items < 2 ^ 32 }
    ensures value { result ≡ leads (r.begins_prefix types.now room all.now) reader.now }
    ensures room { IsTrue result → all.now.count + length all.now.items ≤ room }
{
    match reader.peek() {
        Ok(sight) => is_prefix_at(
            &sight,
            types,
            room,
            all.count as u64 + all.items.len() as u64,
        ),
        Err(_) => false,
    }
}

/// A postfix operator stands next that may stand behind the operand.
pub(crate) fn leads_postfix(reader: &Reader<'_>, operand: &Operand) -> bool
    ensures { result ≡ leads (e.goes_on_unary operand.now.end) reader.now }
{
    match reader.peek() {
        Ok(sight) => goes_on_unary(&sight, operand.end),
        Err(_) => false,
    }
}

/// A binary operator of the level stands next.
pub(crate) fn leads_infix(reader: &Reader<'_>, level: u32) -> bool
    ensures { result ≡ leads (r.is_infix level) reader.now }
{
    match reader.peek() {
        Ok(sight) => infix(&sight, level).is_some(),
        Err(_) => false,
    }
}

/// `=` or `op=` stands next, and may stand behind the chain.
pub(crate) fn leads_assignment(reader: &Reader<'_>, chain: &Chain) -> bool
    ensures { result ≡ leads (r.begins_assignment chain.now) reader.now }
{
    match reader.peek() {
        Ok(sight) => assignment_of(&sight).is_some() && !chain.last.end.is_wide(),
        Err(_) => false,
    }
}
