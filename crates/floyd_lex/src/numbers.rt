ghost use Rattle.std.specs.Prelude.{◌≡◌, ◌≤◌, ◌+◌, ◌*◌, ◌^◌, min, length, take, drop, find, not, ◌&&◌, ◌||◌, nat_le};
ghost use Rattle.std.specs.Char.{digit_value};
ghost use Rattle.floyd_lex.specs.Numbers as specs;

use crate::classes::{Class, run};
use crate::kinds::{LiteralType, TokenKind};
use crate::lead::{Flaw, Lead};

/// In which base a literal is written.
#[derive(Clone, Copy)]
pub enum Base {
    Decimal,
    Octal,
    Hexadecimal,
}

/// What the letters behind a literal's digits say.
#[derive(Clone, Copy)]
pub struct Suffix {
    pub unsigned: bool,
    pub long: bool,
}

impl Base {
    fn radix(self) -> u8
        ensures value { result ≡ specs.radix self }
        ensures least { 8 ≤ result }
        ensures most { result ≤ 16 }
    {
        match self {
            Base::Decimal => 10,
            Base::Octal => 8,
            Base::Hexadecimal => 16,
        }
    }

    fn digits(self) -> Class
        ensures { result ≡ specs.digits_of self }
    {
        match self {
            Base::Decimal => Class::Decimal,
            Base::Octal => Class::Octal,
            Base::Hexadecimal => Class::Hexadecimal,
        }
    }
}

/// A literal of C.
#[tactic(auto, unfolding(crate::specs::Numbers::c_number))]
pub fn c_number(bytes: &[u8]) -> Lead
    ensures { result ≡ specs.c_number bytes.now }
{
    let n = run(Class::Word, bytes);
    if let [b'.', ..] = &bytes[n..] {
        return Lead::Bad(Flaw::BadNumber, 0);
    }
    match literal_of(&bytes[..n]) {
        Some((of, value)) => Lead::Piece(TokenKind::Literal(of, value), n),
        None => Lead::Bad(Flaw::BadNumber, 0),
    }
}

/// The literal that a word of C is, if it is one.
#[tactic(auto, unfolding(crate::specs::Numbers::literal_of))]
fn literal_of(word: &[u8]) -> Option<(LiteralType, u128)>
    ensures { result ≡ specs.literal_of word.now }
{
    let base = base_of(word);
    let body = without_prefix(base, word);
    let n = run(base.digits(), body);
    let suffix = suffix_of(&body[n..])?;
    let value = value_of(base, &body[..n]);
    let of = type_of(base, suffix, value)?;
    Some((of, value))
}

#[tactic(auto, unfolding(crate::specs::Numbers::base_of))]
fn base_of(word: &[u8]) -> Base
    ensures { result ≡ specs.base_of word.now }
{
    match word {
        [
            b'0',
            b'x' | b'X',
            b'0'..=b'9' | b'a'..=b'f' | b'A'..=b'F',
            ..
        ] => Base::Hexadecimal,
        [b'0', ..] => Base::Octal,
        _ => Base::Decimal,
    }
}

/// What stands behind `0x`, where the base has it.
fn without_prefix(base: Base, word: &[u8]) -> &[u8]
    ensures { result.now ≡ drop (specs.prefix_of base) word.now }
{
    match (base, word) {
        (Base::Hexadecimal, [_, _, body @ ..]) => body,
        (Base::Hexadecimal, _) => &[],
        _ => word,
    }
}

/// How many bytes of `u` stand at the front.
fn u_len(bytes: &[u8]) -> usize
    ensures value { result ≡ specs.u_len bytes.now }
    ensures within { result ≤ length bytes.now }
{
    match bytes {
        [b'u' | b'U', ..] => 1,
        _ => 0,
    }
}

/// How many bytes of `l` or `ll` stand at the front.
fn l_len(bytes: &[u8]) -> usize
    ensures value { result ≡ specs.l_len bytes.now }
    ensures within { result ≤ length bytes.now }
{
    match bytes {
        [b'l', b'l', ..] | [b'L', b'L', ..] => 2,
        [b'l' | b'L', ..] => 1,
        _ => 0,
    }
}

#[tactic(auto, unfolding(crate::specs::Numbers::suffix_of))]
fn suffix_of(bytes: &[u8]) -> Option<Suffix>
    ensures { result ≡ specs.suffix_of bytes.now }
{
    let u = u_len(bytes);
    let l = l_len(&bytes[u..]);
    if u + l == bytes.len() {
        return Some(Suffix {
            unsigned: 0 < u,
            long: 0 < l,
        });
    }
    let l = l_len(bytes);
    let u = u_len(&bytes[l..]);
    if l + u == bytes.len() {
        return Some(Suffix {
            unsigned: 0 < u,
            long: 0 < l,
        });
    }
    None
}

const UNSIGNED: [LiteralType; 2] = [LiteralType::UnsignedInt, LiteralType::UnsignedLong];

const SIGNED: [LiteralType; 2] = [LiteralType::Int, LiteralType::Long];

const EITHER: [LiteralType; 4] = [
    LiteralType::Int,
    LiteralType::UnsignedInt,
    LiteralType::Long,
    LiteralType::UnsignedLong,
];

/// The first type of the literal's list that holds the value.
#[tactic(auto, unfolding(crate::specs::Numbers::type_of))]
fn type_of(base: Base, suffix: Suffix, value: u128) -> Option<LiteralType>
    ensures { result ≡ specs.type_of base suffix value }
{
    match (base, suffix.unsigned) {
        (_, true) => first_fit(&UNSIGNED, suffix.long, value),
        (Base::Decimal, false) => first_fit(&SIGNED, suffix.long, value),
        (_, false) => first_fit(&EITHER, suffix.long, value),
    }
}

fn first_fit(types: &[LiteralType], long: bool, value: u128) -> Option<LiteralType>
    ensures { result ≡ find (λ t. (not long || specs.is_long_type t) && nat_le value (specs.greatest t)) types.now }
{
    types
        .iter()
        .copied()
        .find(|t| (!long || is_long_type(*t)) && value <= greatest(*t))
}

fn is_long_type(of: LiteralType) -> bool
    ensures { result ≡ specs.is_long_type of }
{
    matches!(of, LiteralType::Long | LiteralType::UnsignedLong)
}

/// The greatest value of a type.
fn greatest(of: LiteralType) -> u128
    ensures { result ≡ specs.greatest of }
{
    match of {
        LiteralType::Int => (1 << 31) - 1,
        LiteralType::UnsignedInt => (1 << 32) - 1,
        LiteralType::Long => (1 << 63) - 1,
        LiteralType::UnsignedLong => (1 << 64) - 1,
        LiteralType::Untyped => (1 << 126) - 1,
    }
}

/// The number that the digits write, or 2 ^ 126 where it is greater.
pub fn value_of(base: Base, digits: &[u8]) -> u128
    ensures { result ≡ min (specs.number_in (specs.radix base) digits.now) (2 ^ 126) }
{
    let mut value = 0;
    'each: for d in digits {
        value = with_digit(value, base, *d);
    }
    value
}

fn with_digit(value: u128, base: Base, d: u8) -> u128
    requires { value ≤ 2 ^ 126 }
    ensures { result ≡ min (value * specs.radix base + digit_value d) (2 ^ 126) }
{
    if value < 1 << 123 {
        (value * base.radix() as u128 + digit_of(d) as u128).min(1 << 126)
    } else {
        1 << 126
    }
}

fn digit_of(d: u8) -> u8
    ensures value { result ≡ digit_value d }
    ensures small { result ≤ 36 }
{
    match d {
        b'0'..=b'9' => d - b'0',
        b'A'..=b'Z' => d - b'A' + 10,
        b'a'..=b'z' => d - b'a' + 10,
        _ => 36,
    }
}
