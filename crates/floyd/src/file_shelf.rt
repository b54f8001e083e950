ghost use Rattle.std.specs.Prelude.{None, IfOk, ◌≤◌, length};

use floyd_text::{Bytes, Found, Shelf, ShelfFault};
use std::alloc::Global;
use std::fs;
use std::io::{self, ErrorKind, Read, Seek, SeekFrom};
use std::rt::Files;

/// A file that is open, and its name.
#[derive(Drop)]
struct OpenFile<F: Drop> {
    name: Bytes,
    file: F,
}

/// The files of the system, and the one of them that was opened last. It stays open, so that what is read of it is of one
/// file, also where another one takes its name meanwhile.
#[derive(Drop)]
struct SystemFiles<R: Files + Drop>
where
    R::File: Drop,
{
    alloc: Global,
    files: R,
    last: Option<OpenFile<R::File>>,
}

impl<R: Files + Drop> SystemFiles<R>
where
    R::File: Read + Seek + Drop,
{
    fn open(&mut self, name: &str) -> io::Result<()> {
        self.last = None;
        let file = fs::open(&self.files, name)?;
        let name = Bytes::from_slice(self.alloc, name.as_bytes())?;
        self.last = Some(OpenFile { name, file });
        Ok(())
    }

    /// Whether the file of that name is the one that is open.
    fn is_open(&self, name: &str) -> bool {
        match &self.last {
            Some(last) => last.name.as_slice() == name.as_bytes(),
            None => false,
        }
    }

    /// Some of the bytes of a file that stand from `at` on.
    fn read_at(&mut self, name: &str, at: u64, into: &mut [u8]) -> io::Result<usize>
        ensures { IfOk result (λ n. n ≤ length into.old) }
    {
        if !self.is_open(name) {
            self.open(name)?;
        }
        match &mut self.last {
            Some(last) => {
                last.file.seek(SeekFrom::Start(at))?;
                last.file.read(into)
            }
            None => Ok(0),
        }
    }
}

/// The files of the system as a shelf. It tells nothing of what they hold.
#[derive(Drop)]
pub struct FileShelf<R: Files + Drop>
where
    R::File: Drop,
{
    system: SystemFiles<R>,
    faults: u64,
}

impl<R: Files + Drop> FileShelf<R>
where
    R::File: Drop,
{
    pub fn new(alloc: Global, files: R) -> FileShelf<R> {
        FileShelf {
            system: SystemFiles {
                alloc,
                files,
                last: None,
            },
            faults: 0,
        }
    }
}

/// Whether this is the answer about a name that no file has, or that none can have: one that goes through a file as if it
/// were a folder, or one that is too long.
fn is_missing(kind: ErrorKind) -> bool {
    matches!(
        kind,
        ErrorKind::NotFound | ErrorKind::NotADirectory | ErrorKind::InvalidFilename
    )
}

impl<R: Files + Drop> Shelf for FileShelf<R>
where
    R::File: Read + Seek + Drop,
{
    ghost held = { λ _. None };

    ghost faults = { λ s. s.faults };

    #[tactic(auto, unfolding(floyd_text::specs::Outside::HasSome, floyd_text::specs::Outside::HasNone))]
    fn find(&mut self, name: &str) -> Result<Found, ShelfFault> {
        match self.system.open(name) {
            Ok(()) => Ok(Found::There),
            Err(e) if is_missing(e.kind()) => Ok(Found::Missing),
            Err(_) => {
                self.faults = self.faults.saturating_add(1);
                Err(ShelfFault)
            }
        }
    }

    #[tactic(auto, unfolding(floyd_text::specs::Outside::IsRead))]
    fn read(&mut self, name: &str, at: u64, into: &mut [u8]) -> Result<usize, ShelfFault> {
        match self.system.read_at(name, at, into) {
            Ok(n) => Ok(n),
            Err(_) => {
                self.faults = self.faults.saturating_add(1);
                Err(ShelfFault)
            }
        }
    }
}
