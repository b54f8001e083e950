ghost use Rattle.std.specs.Prelude.{◌≡◌, ◌≤◌, ◌++◌, ℕ, Option, List, length, min, take, IfOk, OnErr, OnOk};
ghost use Rattle.floyd_text.specs.Outside.{Files, IsFound, IsRead, HasCause, Appends};

use std::alloc::AllocError;
use thiserror::Error;

/// What a shelf answers about a name.
#[derive(Clone, Copy, PartialEq, Eq, Debug)]
pub enum Found {
    There,
    Missing,
}

/// A shelf could not answer.
#[derive(Clone, Copy, PartialEq, Eq, Debug, Error)]
#[error("a file could not be read")]
pub struct ShelfFault;

/// A sink could not take bytes.
#[derive(Clone, Copy, PartialEq, Eq, Debug, Error)]
#[error("the output could not be written")]
pub struct SinkFault;

/// Files by their names, as far as a program sees them.
pub trait Shelf {
    /// The files, where the shelf tells what it holds. No call changes them.
    ghost held: { Self → Option Files };

    /// How often a call has failed. The count never falls.
    ghost faults: { Self → ℕ };

    /// Whether there is a file of that name.
    fn find(&mut self, name: &str) -> Result<Found, ShelfFault>
        ensures held { held self.new ≡ held self.old }
        ensures found { IfOk result (IsFound (held self.old) name.now) }
        ensures cause { HasCause (faults self.old) (faults self.new) result };

    /// Reads some of the bytes that stand from `at` on, and answers how many: none only where nothing stands there, the
    /// file is missing or there is no room. What the room holds behind them is not said.
    fn read(&mut self, name: &str, at: u64, into: &mut [u8]) -> Result<usize, ShelfFault>
        ensures held { held self.new ≡ held self.old }
        ensures within { IfOk result (λ n. n ≤ length into.old) }
        ensures bytes { IfOk result (λ n. IsRead (held self.old) name.now at (length into.old) n into.new) }
        ensures cause { HasCause (faults self.old) (faults self.new) result };
}

/// Where a program's text goes.
pub trait Sink {
    /// All bytes that were put, where the sink tells.
    ghost written: { Self → Option (List ℕ) };

    /// How often a call has failed. The count never falls.
    ghost faults: { Self → ℕ };

    /// Takes a front of the piece, of one byte or more unless the piece is empty, and answers how many bytes it took.
    fn put(&mut self, piece: &[u8]) -> Result<usize, SinkFault>
        ensures some { IfOk result (λ n. min 1 (length piece.now) ≤ n) }
        ensures within { IfOk result (λ n. n ≤ length piece.now) }
        ensures ok { IfOk result (λ n. Appends (written self.old) (written self.new) (take n piece.now)) }
        ensures err { OnErr result (written self.new ≡ written self.old) }
        ensures cause { HasCause (faults self.old) (faults self.new) result };
}

/// What takes the bytes of a file, piece by piece.
pub trait Taker {
    /// The bytes that were taken so far.
    ghost taken: { Self → List ℕ };

    /// Numbers that say what the bytes are. No call changes them.
    ghost origin: { Self → List ℕ };

    /// Puts the piece at the end, or changes nothing.
    fn take(&mut self, piece: &[u8]) -> Result<(), AllocError>
        ensures ok { OnOk result (taken self.new ≡ taken self.old ++ piece.now) }
        ensures err { OnErr result (taken self.new ≡ taken self.old) }
        ensures origin { origin self.new ≡ origin self.old };
}
