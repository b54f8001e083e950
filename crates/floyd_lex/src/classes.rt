ghost use Rattle.std.specs.Prelude.{◌≡◌, ◌≤◌, length, slice_index};
ghost use Rattle.floyd_lex.specs.Classes as specs;

/// A class of bytes, of which there may be a run.
#[derive(Clone, Copy)]
pub enum Class {
    /// A space or a tab.
    Blank,
    /// Any byte but a line feed.
    NoFeed,
    /// A letter of ASCII, a digit or `_`.
    Word,
    Decimal,
    Octal,
    Hexadecimal,
}

impl Class {
    pub fn has(self, b: u8) -> bool
        ensures { result ≡ specs.in_class self b }
    {
        match self {
            Class::Blank => b == b' ' || b == b'\t',
            Class::NoFeed => b != b'\n',
            Class::Word => is_word(b),
            Class::Decimal => b.is_ascii_digit(),
            Class::Octal => matches!(b, b'0'..=b'7'),
            Class::Hexadecimal => b.is_ascii_hexdigit(),
        }
    }
}

/// Space, tab, line feed, vertical tab, form feed or carriage return.
pub fn is_white(b: u8) -> bool
    ensures { result ≡ specs.is_white b }
{
    b == b' ' || matches!(b, 9..=13)
}

pub fn is_letter(b: u8) -> bool
    ensures { result ≡ specs.is_letter b }
{
    b.is_ascii_alphabetic() || b == b'_'
}

pub fn is_word(b: u8) -> bool
    ensures { result ≡ specs.is_word b }
{
    is_letter(b) || b.is_ascii_digit()
}

/// The length of the longest front whose bytes are all of the class.
pub fn run(class: Class, bytes: &[u8]) -> usize
    ensures value { result ≡ specs.run class bytes.now }
    ensures within { result ≤ length bytes.now }
{
    let mut n = 0;
    'each: while n < bytes.len() && class.has(bytes[n]) {
        n += 1;
    }
    n
}

/// The byte that stands so many bytes behind the first, and 0 where there is none.
pub fn byte_at(bytes: &[u8], at: usize) -> u8
    ensures { result ≡ slice_index bytes.now at }
{
    if at < bytes.len() { bytes[at] } else { 0 }
}
