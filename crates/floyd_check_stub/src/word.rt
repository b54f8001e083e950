//! Texts that are expected, and numerals.
ghost use Rattle.std.specs.Prelude.{◌≡◌, map, IsTrue};
ghost use Rattle.std.specs.List.{list_all};
ghost use Rattle.std.specs.Option.{option_map};
ghost use Rattle.std.specs.Str.Parse.{digits_value};
ghost use Rattle.floyd_check_stub.specs.Forms.{texts};
ghost use Rattle.floyd_check_stub.specs.LeftClauses.{left};
ghost use Rattle.floyd_check_stub.specs.ReadingClauses.{after_all, is_digit, is_numeral, small, int_of};

use crate::left::{Left, first_token};

/// What follows these texts, none where the tokens begin with other ones.
pub fn after_all<'a>(tokens: Left<'a>, words: &[&[u8]]) -> Option<Left<'a>>
    ensures { option_map (λ l. texts (left l)) result ≡ after_all (map (λ w. w.now) words.now) (texts (left tokens.entry)) }
{
    let mut rest = tokens;
    'words: for word in words {
        match first_token(rest) {
            Some(first) => {
                if first.text != *word {
                    return None;
                }
                rest = first.rest;
            }
            None => return None,
        }
    }
    Some(rest)
}

fn is_digit(b: u8) -> bool
    ensures { result ≡ is_digit b }
{
    matches!(b, b'0'..=b'9')
}

fn are_digits(bytes: &[u8]) -> bool
    ensures { result ≡ list_all is_digit bytes.now }
{
    bytes.iter().all(|b| is_digit(*b))
}

fn is_numeral(text: &[u8]) -> bool
    ensures { result ≡ is_numeral text.now }
{
    match text {
        [] => false,
        [b] => is_digit(*b),
        [b, ..] => *b != b'0' && are_digits(text),
    }
}

/// The number of these digits, if it is an int.
fn small_value(digits: &[u8]) -> Option<u32>
    requires { IsTrue (list_all is_digit digits.now) }
    ensures { result ≡ small (digits_value 10 digits.now) }
{
    let mut value: u32 = 0;
    'digits: for b in digits {
        let more = u64::from(value) * 10 + u64::from(*b - b'0');
        if more > 2147483647 {
            return None;
        }
        value = more as u32;
    }
    Some(value)
}

/// The int whose numeral this is.
pub fn int_of(text: &[u8]) -> Option<u32>
    ensures { result ≡ int_of text.now }
{
    if is_numeral(text) {
        small_value(text)
    } else {
        None
    }
}
