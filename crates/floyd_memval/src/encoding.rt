ghost use Rattle.std.specs.Prelude.{◌≡◌, ◌++◌, length, drop, replicate};
ghost use Rattle.floyd_memval.specs.Chunks.{chunk_size};
ghost use Rattle.floyd_memval.specs.Encoding.{encoding, number_bytes, fragments};

use crate::bytes::{Chunk, MemByte};
use floyd_int::Value;

/// The bytes of a value at a chunk, from the lowest place on, and how many they are. Numbers are little-endian. What
/// does not fit the chunk, as a pointer at `I32` or a `Vlong` at `I8`, is laid down as undefined bytes.
#[tactic(auto, unfolding(crate::specs::Encoding::encoding))]
pub fn encode(chunk: Chunk, v: &Value, into: &mut [MemByte; 8]) -> usize
    ensures size { result ≡ chunk_size chunk }
    ensures bytes { into.new ≡ encoding chunk v.now ++ drop result into.old }
{
    let size = chunk.size();
    match *v {
        Value::Vint(bits) if chunk.is_narrow() => put_number(u64::from(bits), &mut into[..size]),
        Value::Vlong(bits) if !chunk.is_narrow() => put_number(bits, &mut into[..size]),
        Value::Vptr(_, _) if !chunk.is_narrow() => put_fragments(*v, into),
        _ => put_undefined(&mut into[..size]),
    }
    size
}

/// As many of the number's lowest bytes as there are places.
fn put_number(bits: u64, into: &mut [MemByte])
    ensures { into.new ≡ number_bytes (length into.old) bits }
{
    let mut rest = bits;
    'places: for place in into.iter_mut() {
        *place = MemByte::Byte((rest % 256) as u8);
        rest /= 256;
    }
}

fn put_fragments(v: Value, into: &mut [MemByte; 8])
    ensures { into.new ≡ fragments 8 v }
{
    'fragments: for number in 0..8u8 {
        into[usize::from(7 - number)] = MemByte::Fragment(v, number);
    }
}

fn put_undefined(into: &mut [MemByte])
    ensures { into.new ≡ replicate (length into.old) MemByte.Undef }
{
    into.fill(MemByte::Undef);
}
