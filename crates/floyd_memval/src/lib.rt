//! The bytes of memory, and values as bytes.
#![tactic(auto)]

mod bytes;
mod decoding;
mod encoding;
mod laws;
mod scalars;

pub use bytes::{Chunk, MemByte};
pub use decoding::decode;
pub use encoding::encode;
pub use laws::{bytes_of_chunks, values_come_back};
pub use scalars::chunk_of;
