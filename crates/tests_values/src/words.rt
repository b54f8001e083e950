ghost use Rattle.std.specs.Prelude.{◌≤◌};

use floyd_int::{IntKind, Value};
use std::alloc::{AllocError, AllocFailed, Global};

/// Why a row was not tried.
#[derive(Clone, Copy)]
pub enum Stop {
    Unreadable,
    Memory,
}

impl From<AllocError> for Stop {
    fn from(_error: AllocError) -> Stop {
        Stop::Memory
    }
}

impl<T: Drop> From<AllocFailed<T>> for Stop {
    fn from(_error: AllocFailed<T>) -> Stop {
        Stop::Memory
    }
}

/// The words of a line.
pub fn words_of(alloc: Global, line: &str) -> Result<Vec<&str>, AllocError> {
    line.split_whitespace().collect(alloc)
}

/// The word at that place.
pub fn word<'a>(row: &[&'a str], place: usize) -> Result<&'a str, Stop> {
    match row.get(place) {
        Some(word) => Ok(*word),
        None => Err(Stop::Unreadable),
    }
}

/// A number in digits up to that base.
pub fn number(word: &str, base: u32) -> Result<u64, Stop>
    requires least { 2 ≤ base }
    requires most { base ≤ 36 }
{
    match u64::from_str_radix(word, base) {
        Ok(n) => Ok(n),
        Err(_) => Err(Stop::Unreadable),
    }
}

/// The same, or nothing for `-`.
pub fn some_number(word: &str, base: u32) -> Result<Option<u64>, Stop>
    requires least { 2 ≤ base }
    requires most { base ≤ 36 }
{
    if word == "-" {
        return Ok(None);
    }
    Ok(Some(number(word, base)?))
}

pub fn kind_of(word: &str) -> Option<IntKind> {
    match word {
        "I8" => Some(IntKind::I8),
        "U8" => Some(IntKind::U8),
        "I16" => Some(IntKind::I16),
        "U16" => Some(IntKind::U16),
        "I32" => Some(IntKind::I32),
        "U32" => Some(IntKind::U32),
        "I64" => Some(IntKind::I64),
        "U64" => Some(IntKind::U64),
        _ => None,
    }
}

fn word32(word: &str) -> Result<u32, Stop> {
    match u32::from_str_radix(word, 16) {
        Ok(n) => Ok(n),
        Err(_) => Err(Stop::Unreadable),
    }
}

/// `Vundef`, `Vint:BITS`, `Vlong:BITS` or `Vptr:BLOCK:OFFSET`, with hexadecimal numbers.
pub fn value_of(word: &str) -> Result<Value, Stop> {
    let (kind, rest) = word.split_once(':').unwrap_or((word, ""));
    match kind {
        "Vundef" => Ok(Value::Vundef),
        "Vint" => Ok(Value::Vint(word32(rest)?)),
        "Vlong" => Ok(Value::Vlong(number(rest, 16)?)),
        "Vptr" => {
            let (block, offset) = rest.split_once(':').unwrap_or((rest, ""));
            Ok(Value::Vptr(word32(block)?, number(offset, 16)?))
        }
        _ => Err(Stop::Unreadable),
    }
}

/// Whether the word is `yes`, where this is so, or `no`.
pub fn says(word: &str, yes: bool) -> bool {
    word == if yes { "yes" } else { "no" }
}
