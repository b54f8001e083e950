ghost use Rattle.std.specs.Prelude.{◌≡◌, ◌≤◌, ◌<◌, ◌+◌, ◌*◌, ◌^◌, length, IfSome};
ghost use Rattle.floyd_int.specs.Kind.{width, cast_of};
ghost use Rattle.floyd_memval.specs.Chunks.{chunk_size};
ghost use Rattle.floyd_memval.specs.Decoding.{decoding, number_in, number_value as number_value_lem, is_fragment as is_fragment_lem, are_fragments as are_fragments_lem, pointer_in};

use crate::bytes::{Chunk, MemByte};
use floyd_int::{IntKind, Value, cast};

/// The value of bytes at a chunk, given from the lowest place on. At `I8` to `I32` a number is read with the chunk's
/// sign, and is a `Vint` of the 32 bits of what was read. A pointer is given by its eight fragments at `I64` and `Ptr`
/// alike. All else gives `Vundef`, as fragments out of order or beside numbers.
#[tactic(auto, unfolding(crate::specs::Decoding::decoding))]
pub fn decode(chunk: Chunk, from: &[MemByte]) -> Value
    requires { length from.now ≡ chunk_size chunk }
    ensures { result ≡ decoding chunk from.now }
{
    match number(from) {
        Some(bits) => number_value(chunk, bits),
        None if chunk.is_narrow() => Value::Vundef,
        None => pointer(from),
    }
}

/// The number whose bytes these are, where all of them are numbers.
fn number(from: &[MemByte]) -> Option<u64>
    requires { length from.now ≤ 8 }
    ensures value { result ≡ number_in from.now }
    ensures below { IfSome result (λ n. n < 256 ^ length from.now) }
{
    let mut bits = 0;
    'bytes: for i in (0..from.len()).rev() {
        let MemByte::Byte(byte) = from[i] else {
            return None;
        };
        bits = with_low_byte(bits, byte);
    }
    Some(bits)
}

/// The number that has this byte below the given ones.
fn with_low_byte(bits: u64, byte: u8) -> u64
    requires { bits < 256 ^ 7 }
    ensures value { result ≡ byte + 256 * bits }
    ensures below { result < 256 * (bits + 1) }
{
    bits * 256 + u64::from(byte)
}

fn number_value(chunk: Chunk, bits: u64) -> Value
    requires { bits < 256 ^ chunk_size chunk }
    ensures { result ≡ number_value_lem chunk bits }
{
    match chunk {
        Chunk::I8 => widened(IntKind::I8, bits),
        Chunk::U8 => widened(IntKind::U8, bits),
        Chunk::I16 => widened(IntKind::I16, bits),
        Chunk::U16 => widened(IntKind::U16, bits),
        Chunk::I32 => Value::Vint(bits as u32),
        Chunk::I64 | Chunk::Ptr => Value::Vlong(bits),
    }
}

/// The 32 bits of what the bits are at the kind.
fn widened(kind: IntKind, bits: u64) -> Value
    requires { bits < 2 ^ width kind }
    ensures { result ≡ Value.Vint (cast_of kind IntKind.I32 bits) }
{
    Value::Vint(cast(bits, kind, IntKind::I32) as u32)
}

/// The pointer whose fragments these are.
fn pointer(from: &[MemByte]) -> Value
    requires { length from.now ≡ 8 }
    ensures { result ≡ pointer_in from.now }
{
    match from[0] {
        MemByte::Fragment(Value::Vptr(block, offset), _) if are_fragments(block, offset, from) => {
            Value::Vptr(block, offset)
        }
        _ => Value::Vundef,
    }
}

/// Whether the bytes are the fragments of the pointer, in order.
fn are_fragments(block: u32, offset: u64, from: &[MemByte]) -> bool
    requires { length from.now ≤ 8 }
    ensures { result ≡ are_fragments_lem (length from.now) block offset from.now }
{
    'bytes: for i in 0..from.len() {
        if !is_fragment((from.len() - 1 - i) as u8, block, offset, from[i]) {
            return false;
        }
    }
    true
}

/// Whether the byte is the fragment of that number of the pointer.
fn is_fragment(number: u8, block: u32, offset: u64, byte: MemByte) -> bool
    ensures { result ≡ is_fragment_lem number block offset byte }
{
    match byte {
        MemByte::Fragment(Value::Vptr(b, o), n) => block == b && offset == o && n == number,
        _ => false,
    }
}
