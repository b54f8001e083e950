ghost use Rattle.std.specs.Prelude.{◌≡◌, ◌≤◌, IfOk, length, min, is_err};
ghost use Rattle.floyd_text.specs.Calls.{after_call, fails_next};
ghost use Rattle.floyd_text.specs.Outside.{HasCause, IsFound, IsRead, bytes_from, file_in};

use crate::call_count::CallCount;
use crate::named_file::NamedFile;
use crate::outside::{Found, Shelf, ShelfFault};
use crate::stored::{found_in, read_from};
use std::marker::Model;

/// A shelf of files in memory. Its calls are counted from 1, over `find` and `read` together, and those with a number
/// in a given list fail. Of two files of one name the first counts.
#[derive(Debug, Drop)]
pub struct MemShelf {
    files: Vec<NamedFile>,
    calls: CallCount,
}

impl Model for MemShelf {
    ghost use Rattle.floyd_text.specs.Stand.{MemFiles};

    ghost Value = { MemFiles };

    ghost view = { λ s. record { files = s.files.items; calls = s.calls } };
}

impl MemShelf {
    /// A shelf of these files, whose calls of these numbers fail.
    pub fn new(files: Vec<NamedFile>, failing: Vec<u64>) -> MemShelf
        ensures { result ≡ record { files = files.items; calls = record { failing = failing.items; count = 0; faults = 0 } } }
    {
        MemShelf {
            files,
            calls: CallCount::new(failing),
        }
    }

    /// How many calls there were.
    pub fn calls(&self) -> u64
        ensures { result ≡ self.now.calls.count }
    {
        self.calls.count()
    }

    /// How many calls failed.
    pub fn faults(&self) -> u64
        ensures { result ≡ self.now.calls.faults }
    {
        self.calls.faults()
    }
}

impl Shelf for MemShelf {
    ghost use Rattle.std.specs.Prelude.{Some};

    ghost held = { λ s. Some s.files };

    ghost faults = { λ s. s.calls.faults };

    fn find(&mut self, name: &str) -> Result<Found, ShelfFault>
        ensures held { self.new.files ≡ self.old.files }
        ensures found { IfOk result (IsFound (Some self.old.files) name.now) }
        ensures cause { HasCause self.old.calls.faults self.new.calls.faults result }

        ensures fails { is_err result ≡ fails_next self.old.calls }
        ensures calls { self.new.calls ≡ after_call self.old.calls (is_err result) }
    {
        if self.calls.next_fails() {
            return Err(ShelfFault);
        }
        Ok(found_in(&self.files, name))
    }

    /// Reads as much as there is room for.
    fn read(&mut self, name: &str, at: u64, into: &mut [u8]) -> Result<usize, ShelfFault>
        ensures held { self.new.files ≡ self.old.files }
        ensures within { IfOk result (λ n. n ≤ length into.old) }
        ensures bytes { IfOk result (λ n. IsRead (Some self.old.files) name.now at (length into.old) n into.new) }
        ensures most { IfOk result (λ n. n ≡ min (length into.old) (length (bytes_from (file_in self.old.files name.now) at))) }
        ensures cause { HasCause self.old.calls.faults self.new.calls.faults result }

        ensures fails { is_err result ≡ fails_next self.old.calls }
        ensures calls { self.new.calls ≡ after_call self.old.calls (is_err result) }
    {
        if self.calls.next_fails() {
            return Err(ShelfFault);
        }
        Ok(read_from(&self.files, name, at, into))
    }
}
