ghost use Rattle.std.specs.Prelude.{◌≡◌, ◌-◌, ◌<◌, ◌≤◌, [], ◌||◌, nat_le, IfOk, OnErr, is_err, length, min, take};
ghost use Rattle.floyd_text.specs.Calls.{after_call, fails_next};
ghost use Rattle.floyd_text.specs.Outside.{HasCause, Appends};

use crate::call_count::CallCount;
use crate::outside::{Sink, SinkFault};
use std::alloc::{AllocError, Global};
use std::marker::Model;

/// A sink in memory. Its calls are counted from 1, and those with a number in a given list fail; so does a call when no
/// room is left, whatever its piece is.
#[derive(Debug, Drop)]
pub struct MemSink {
    text: Vec<u8>,
    room: usize,
    largest: usize,
    calls: CallCount,
}

impl Model for MemSink {
    ghost use Rattle.std.specs.Prelude.{◌<◌, ◌≤◌, vec_len, vec_capacity};
    ghost use Rattle.floyd_text.specs.Stand.{MemText};

    ghost Value = { MemText };

    ghost view = { λ s. record { text = s.text.items; room = s.room; largest = s.largest; calls = s.calls } };

    ghost invariant = { λ s. (vec_len s.text ≤ s.room) × (s.room ≤ vec_capacity s.text) × (0 < s.largest) };
}

impl MemSink {
    /// A sink with room for so many bytes, which takes no piece larger than `largest` at once, and whose calls of these
    /// numbers fail.
    pub fn new(
        alloc: Global,
        room: usize,
        largest: usize,
        failing: Vec<u64>,
    ) -> Result<MemSink, AllocError>
        requires { 0 < largest }
        ensures { IfOk result (λ s. s ≡ record { text = []; room = room; largest = largest; calls = record { failing = failing.items; count = 0; faults = 0 } }) }
    {
        Ok(MemSink {
            text: Vec::with_capacity(alloc, room)?,
            room,
            largest,
            calls: CallCount::new(failing),
        })
    }

    /// What was written.
    pub fn text(&self) -> &[u8]
        ensures { result.now ≡ self.now.text }
    {
        self.text.as_slice()
    }

    /// How many calls there were.
    pub fn calls(&self) -> u64
        ensures { result ≡ self.now.calls.count }
    {
        self.calls.count()
    }

    /// How many calls failed.
    pub fn faults(&self) -> u64
        ensures { result ≡ self.now.calls.faults }
    {
        self.calls.faults()
    }
}

impl Sink for MemSink {
    ghost use Rattle.std.specs.Prelude.{Some};

    ghost written = { λ s. Some s.text };

    ghost faults = { λ s. s.calls.faults };

    #[tactic(auto, unfolding(crate::specs::Outside::Appends))]
    fn put(&mut self, piece: &[u8]) -> Result<usize, SinkFault>
        ensures some { IfOk result (λ n. min 1 (length piece.now) ≤ n) }
        ensures within { IfOk result (λ n. n ≤ length piece.now) }
        ensures ok { IfOk result (λ n. Appends (Some self.old.text) (Some self.new.text) (take n piece.now)) }
        ensures err { OnErr result (self.new.text ≡ self.old.text) }
        ensures cause { HasCause self.old.calls.faults self.new.calls.faults result }

        ensures fails { is_err result ≡ (fails_next self.old.calls || nat_le self.old.room (length self.old.text)) }
        ensures calls { self.new.calls ≡ after_call self.old.calls (is_err result) }
        ensures takes { IfOk result (λ n. n ≡ min (length piece.now) (min self.old.largest (self.old.room - length self.old.text))) }
        ensures room { self.new.room ≡ self.old.room }
        ensures largest { self.new.largest ≡ self.old.largest }
    {
        let left = self.room - self.text.len();
        if left == 0 {
            self.calls.fail();
            return Err(SinkFault);
        }
        if self.calls.next_fails() {
            return Err(SinkFault);
        }
        let n = piece.len().min(self.largest.min(left));
        self.text.extend_from_slice(&piece[..n]).unwrap();
        Ok(n)
    }
}
