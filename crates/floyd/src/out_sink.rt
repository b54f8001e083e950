ghost use Rattle.std.specs.Prelude.{None};

use floyd_text::{Sink, SinkFault};
use std::io::Write;

/// A writer as a sink. It tells nothing of what was written. A write that takes no byte is a fault.
#[derive(Drop)]
pub struct OutSink<W: Write + Drop> {
    out: W,
    faults: u64,
}

impl<W: Write + Drop> OutSink<W> {
    pub fn new(out: W) -> OutSink<W> {
        OutSink { out, faults: 0 }
    }
}

impl<W: Write + Drop> Sink for OutSink<W> {
    ghost written = { λ _. None };

    ghost faults = { λ s. s.faults };

    #[tactic(auto, unfolding(floyd_text::specs::Outside::Appends))]
    fn put(&mut self, piece: &[u8]) -> Result<usize, SinkFault> {
        if piece.is_empty() {
            return Ok(0);
        }
        match self.out.write(piece) {
            Ok(n) if n > 0 => Ok(n),
            _ => {
                self.faults = self.faults.saturating_add(1);
                Err(SinkFault)
            }
        }
    }
}
