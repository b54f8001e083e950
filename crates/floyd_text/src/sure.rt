ghost use Rattle.std.specs.Prelude.{◌≡◌, Some, Ok, None, IfOk, length, min};
ghost use Rattle.floyd_text.specs.Outside.{Appends, IsRead, bytes_from, file_in};

use crate::named_file::NamedFile;
use crate::outside::{Found, Shelf, ShelfFault, Sink, SinkFault};
use crate::stored::{found_in, read_from};
use std::marker::Model;

/// A shelf of files in memory that never fails. Of two files of one name the first counts.
#[derive(Debug, Drop)]
pub struct SureShelf {
    files: Vec<NamedFile>,
}

impl Model for SureShelf {
    ghost use Rattle.floyd_text.specs.Outside.{Files};

    ghost Value = { Files };

    ghost view = { λ s. s.files.items };
}

impl SureShelf {
    pub fn new(files: Vec<NamedFile>) -> SureShelf
        ensures { result ≡ files.items }
    {
        SureShelf { files }
    }
}

impl Shelf for SureShelf {
    ghost held = { λ s. Some s };

    ghost faults = { λ _. 0 };

    fn find(&mut self, name: &str) -> Result<Found, ShelfFault> {
        Ok(found_in(&self.files, name))
    }

    /// Reads as much as there is room for.
    fn read(&mut self, name: &str, at: u64, into: &mut [u8]) -> Result<usize, ShelfFault>
        ensures held { self.new ≡ self.old }
        ensures most { result ≡ Ok (min (length into.old) (length (bytes_from (file_in self.old name.now) at))) }
        ensures bytes { IfOk result (λ n. IsRead (Some self.old) name.now at (length into.old) n into.new) }
    {
        Ok(read_from(&self.files, name, at, into))
    }
}

/// A sink that takes each piece whole, keeps nothing and never fails.
#[derive(Clone, Copy, Debug)]
pub struct SureSink;

impl Sink for SureSink {
    ghost written = { λ _. None };

    ghost faults = { λ _. 0 };

    #[tactic(auto, unfolding(crate::specs::Outside::Appends))]
    fn put(&mut self, piece: &[u8]) -> Result<usize, SinkFault>
        ensures whole { result ≡ Ok (length piece.now) }
        ensures ok { Appends None None piece.now }
    {
        Ok(piece.len())
    }
}
