//! Values as bytes of memory, and back.

use crate::words::{Stop, number, value_of, word};
use floyd_int::Value;
use floyd_memval::{Chunk, MemByte, decode, encode};

fn chunk_of(word: &str) -> Result<Chunk, Stop> {
    match word {
        "I8" => Ok(Chunk::I8),
        "U8" => Ok(Chunk::U8),
        "I16" => Ok(Chunk::I16),
        "U16" => Ok(Chunk::U16),
        "I32" => Ok(Chunk::I32),
        "I64" => Ok(Chunk::I64),
        "Ptr" => Ok(Chunk::Ptr),
        _ => Err(Stop::Unreadable),
    }
}

/// What a place holds that nothing was written to.
fn untouched() -> MemByte {
    MemByte::Fragment(Value::Vundef, 9)
}

/// A byte in two letters.
fn byte_of(word: &str, value: Value) -> Result<MemByte, Stop> {
    if word == "--" {
        return Ok(MemByte::Undef);
    }
    match word.strip_prefix('p') {
        Some(digit) => Ok(MemByte::Fragment(value, (number(digit, 8)? & 7) as u8)),
        None => Ok(MemByte::Byte((number(word, 16)? & 255) as u8)),
    }
}

/// The bytes of a word, and places that are untouched.
fn places_of(word: &str, value: Value) -> Result<[MemByte; 8], Stop> {
    let mut places = [untouched(); 8];
    'places: for (i, place) in places.iter_mut().enumerate() {
        if let Some(letters) = word.get(2 * i..2 * i + 2) {
            *place = byte_of(letters, value)?;
        }
    }
    Ok(places)
}

/// Whether the bytes are read as the value.
fn are_read(chunk: Chunk, places: &[MemByte; 8], back: Value) -> Result<bool, Stop> {
    match places.get(..chunk.size()) {
        Some(bytes) => Ok(decode(chunk, bytes) == back),
        None => Err(Stop::Unreadable),
    }
}

/// A chunk, a value, its bytes and what they are read as, or `read` and the same where the value has other bytes.
pub fn agrees(row: &[&str]) -> Result<bool, Stop> {
    if word(row, 0)? == "read" {
        let chunk = chunk_of(word(row, 1)?)?;
        let places = places_of(word(row, 3)?, value_of(word(row, 2)?)?)?;
        return are_read(chunk, &places, value_of(word(row, 4)?)?);
    }
    let chunk = chunk_of(word(row, 0)?)?;
    let value = value_of(word(row, 1)?)?;
    let places = places_of(word(row, 2)?, value)?;
    let mut laid = [untouched(); 8];
    let size = encode(chunk, &value, &mut laid);
    Ok(
        size == chunk.size()
            && laid == places
            && are_read(chunk, &places, value_of(word(row, 3)?)?)?,
    )
}
