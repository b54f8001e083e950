ghost use Rattle.std.specs.Prelude.{◌≡◌};
ghost use Rattle.floyd_lex.specs.Marks as specs;

use crate::kinds::{FileKind, Punctuator, TokenKind};
use crate::lead::{Flaw, Lead};

/// The longest mark of C at the front.
#[tactic(auto, unfolding(crate::specs::Marks::c_mark))]
pub fn c_mark(bytes: &[u8]) -> Lead
    ensures { result ≡ specs.c_mark bytes.now }
{
    if let Some(mark) = c_three(bytes) {
        return Lead::Piece(TokenKind::Punctuator(mark), 3);
    }
    if let Some(mark) = c_two(bytes) {
        return Lead::Piece(TokenKind::Punctuator(mark), 2);
    }
    if let Some(mark) = c_one(bytes) {
        return Lead::Piece(TokenKind::Punctuator(mark), 1);
    }
    Lead::Bad(Flaw::BadByte, 0)
}

/// The longest mark of a specification or a script at the front.
#[tactic(auto, unfolding(crate::specs::Marks::other_mark))]
pub fn other_mark(kind: FileKind, bytes: &[u8]) -> Lead
    ensures { result ≡ specs.other_mark kind bytes.now }
{
    if let Some(mark) = shared_two(bytes) {
        return Lead::Piece(TokenKind::Punctuator(mark), 2);
    }
    if let Some(mark) = own_two(kind, bytes) {
        return Lead::Piece(TokenKind::Punctuator(mark), 2);
    }
    if let Some(mark) = shared_one(bytes) {
        return Lead::Piece(TokenKind::Punctuator(mark), 1);
    }
    if let Some(mark) = own_one(kind, bytes) {
        return Lead::Piece(TokenKind::Punctuator(mark), 1);
    }
    Lead::Bad(Flaw::BadByte, 0)
}

/// C's marks of three bytes.
fn c_three(bytes: &[u8]) -> Option<Punctuator>
    ensures { result ≡ specs.mark_in specs.c_three bytes.now }
{
    match bytes {
        [b'.', b'.', b'.', ..] => Some(Punctuator::Ellipsis),
        [b'<', b'<', b'=', ..] => Some(Punctuator::ShiftLeftEqual),
        [b'>', b'>', b'=', ..] => Some(Punctuator::ShiftRightEqual),
        _ => None,
    }
}

/// C's marks of two bytes.
fn c_two(bytes: &[u8]) -> Option<Punctuator>
    ensures { result ≡ specs.mark_in specs.c_two bytes.now }
{
    match bytes {
        [b'-', b'>', ..] => Some(Punctuator::Arrow),
        [b'+', b'+', ..] => Some(Punctuator::PlusPlus),
        [b'-', b'-', ..] => Some(Punctuator::MinusMinus),
        [b'<', b'<', ..] => Some(Punctuator::ShiftLeft),
        [b'>', b'>', ..] => Some(Punctuator::ShiftRight),
        [b'<', b'=', ..] => Some(Punctuator::LessEqual),
        [b'>', b'=', ..] => Some(Punctuator::GreaterEqual),
        [b'=', b'=', ..] => Some(Punctuator::EqualEqual),
        [b'!', b'=', ..] => Some(Punctuator::NotEqual),
        [b'&', b'&', ..] => Some(Punctuator::AndAnd),
        [b'|', b'|', ..] => Some(Punctuator::BarBar),
        [b'*', b'=', ..] => Some(Punctuator::StarEqual),
        [b'/', b'=', ..] => Some(Punctuator::SlashEqual),
        [b'%', b'=', ..] => Some(Punctuator::PercentEqual),
        [b'+', b'=', ..] => Some(Punctuator::PlusEqual),
        [b'-', b'=', ..] => Some(Punctuator::MinusEqual),
        [b'&', b'=', ..] => Some(Punctuator::AmpersandEqual),
        [b'^', b'=', ..] => Some(Punctuator::CaretEqual),
        [b'|', b'=', ..] => Some(Punctuator::BarEqual),
        _ => None,
    }
}

/// C's marks of one byte.
fn c_one(bytes: &[u8]) -> Option<Punctuator>
    ensures { result ≡ specs.mark_in specs.c_one bytes.now }
{
    match bytes {
        [b'(', ..] => Some(Punctuator::OpenParen),
        [b')', ..] => Some(Punctuator::CloseParen),
        [b'[', ..] => Some(Punctuator::OpenBracket),
        [b']', ..] => Some(Punctuator::CloseBracket),
        [b'{', ..] => Some(Punctuator::OpenBrace),
        [b'}', ..] => Some(Punctuator::CloseBrace),
        [b'.', ..] => Some(Punctuator::Dot),
        [b'&', ..] => Some(Punctuator::Ampersand),
        [b'*', ..] => Some(Punctuator::Star),
        [b'+', ..] => Some(Punctuator::Plus),
        [b'-', ..] => Some(Punctuator::Minus),
        [b'~', ..] => Some(Punctuator::Tilde),
        [b'!', ..] => Some(Punctuator::Exclamation),
        [b'/', ..] => Some(Punctuator::Slash),
        [b'%', ..] => Some(Punctuator::Percent),
        [b'<', ..] => Some(Punctuator::Less),
        [b'>', ..] => Some(Punctuator::Greater),
        [b'^', ..] => Some(Punctuator::Caret),
        [b'|', ..] => Some(Punctuator::Bar),
        [b'?', ..] => Some(Punctuator::Question),
        [b':', ..] => Some(Punctuator::Colon),
        [b';', ..] => Some(Punctuator::Semicolon),
        [b'=', ..] => Some(Punctuator::Equal),
        [b',', ..] => Some(Punctuator::Comma),
        _ => None,
    }
}

/// The marks of two bytes that specifications and scripts have.
fn shared_two(bytes: &[u8]) -> Option<Punctuator>
    ensures { result ≡ specs.mark_in specs.shared_two bytes.now }
{
    match bytes {
        [b':', b':', ..] => Some(Punctuator::ColonColon),
        [b'+', b'+', ..] => Some(Punctuator::PlusPlus),
        [b'-', b'>', ..] => Some(Punctuator::Arrow),
        [b'<', b'=', ..] => Some(Punctuator::LessEqual),
        [b'>', b'=', ..] => Some(Punctuator::GreaterEqual),
        [b'<', b'>', ..] => Some(Punctuator::LessGreater),
        _ => None,
    }
}

/// The mark of two bytes that this kind of file alone has.
fn own_two(kind: FileKind, bytes: &[u8]) -> Option<Punctuator>
    ensures { result ≡ specs.mark_in (specs.own_two kind) bytes.now }
{
    match (kind, bytes) {
        (FileKind::Spec, [b'=', b'>', ..]) => Some(Punctuator::FatArrow),
        (FileKind::Script, [b'<', b'-', ..]) => Some(Punctuator::LeftArrow),
        _ => None,
    }
}

/// The marks of one byte that specifications and scripts have.
fn shared_one(bytes: &[u8]) -> Option<Punctuator>
    ensures { result ≡ specs.mark_in specs.shared_one bytes.now }
{
    match bytes {
        [b'(', ..] => Some(Punctuator::OpenParen),
        [b')', ..] => Some(Punctuator::CloseParen),
        [b'[', ..] => Some(Punctuator::OpenBracket),
        [b']', ..] => Some(Punctuator::CloseBracket),
        [b';', ..] => Some(Punctuator::Semicolon),
        [b',', ..] => Some(Punctuator::Comma),
        [b'.', ..] => Some(Punctuator::Dot),
        [b':', ..] => Some(Punctuator::Colon),
        [b'=', ..] => Some(Punctuator::Equal),
        [b'<', ..] => Some(Punctuator::Less),
        [b'>', ..] => Some(Punctuator::Greater),
        [b'+', ..] => Some(Punctuator::Plus),
        [b'-', ..] => Some(Punctuator::Minus),
        [b'*', ..] => Some(Punctuator::Star),
        _ => None,
    }
}

/// The mark of one byte that this kind of file alone has.
fn own_one(kind: FileKind, bytes: &[u8]) -> Option<Punctuator>
    ensures { result ≡ specs.mark_in (specs.own_one kind) bytes.now }
{
    match (kind, bytes) {
        (FileKind::Spec, [b'|', ..]) => Some(Punctuator::Bar),
        _ => None,
    }
}
