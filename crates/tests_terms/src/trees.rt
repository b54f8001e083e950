use floyd_text::Name;
use floyd_tree::{MakeStop, RewriteStop};
use sqlite_items::Items;
use std::alloc::{AllocError, AllocFailed, Global};
use std::mem;

/// A word, or trees between parentheses.
pub enum Tree {
    Word(Name),
    Group(Items<Tree>),
}

impl Drop for Tree {
    fn drop(self) {
        match self {
            Tree::Word(word) => drop(word),
            Tree::Group(parts) => drop(parts),
        }
    }
}

/// Why a row has no answer.
#[derive(Clone, Copy, PartialEq, Eq, Debug)]
pub enum Stop {
    IllSorted,
    TooLarge,
    Absent,
    Unreadable,
    Memory,
}

impl Stop {
    pub fn word(self) -> &'static str {
        match self {
            Stop::IllSorted => "ill-sorted",
            Stop::TooLarge => "too-large",
            Stop::Absent => "absent",
            Stop::Unreadable => "unreadable",
            Stop::Memory => "memory",
        }
    }
}

impl From<AllocError> for Stop {
    fn from(_error: AllocError) -> Stop {
        Stop::Memory
    }
}

impl<T: Drop> From<AllocFailed<T>> for Stop {
    fn from(_error: AllocFailed<T>) -> Stop {
        Stop::Memory
    }
}

impl From<MakeStop> for Stop {
    fn from(stop: MakeStop) -> Stop {
        match stop {
            MakeStop::IllSorted => Stop::IllSorted,
            MakeStop::TooLarge => Stop::TooLarge,
            MakeStop::Memory => Stop::Memory,
        }
    }
}

impl From<RewriteStop> for Stop {
    fn from(stop: RewriteStop) -> Stop {
        match stop {
            RewriteStop::IllSorted => Stop::IllSorted,
            RewriteStop::TooLarge => Stop::TooLarge,
            RewriteStop::PathAbsent => Stop::Absent,
            RewriteStop::Memory => Stop::Memory,
        }
    }
}

impl Tree {
    /// The word, or no letters.
    pub fn word(&self) -> &str {
        match self {
            Tree::Word(word) => text(word),
            Tree::Group(_) => "",
        }
    }

    /// The trees between the parentheses, or none.
    pub fn parts(&self) -> &[Tree] {
        match self {
            Tree::Word(_) => &[],
            Tree::Group(parts) => parts.as_slice(),
        }
    }

    pub fn number(&self) -> Result<i128, Stop> {
        match self.word().parse::<i128>() {
            Ok(n) => Ok(n),
            Err(_) => Err(Stop::Unreadable),
        }
    }

    pub fn count(&self) -> Result<u32, Stop> {
        match u32::try_from(self.number()?) {
            Ok(n) => Ok(n),
            Err(_) => Err(Stop::Unreadable),
        }
    }

    pub fn name(&self) -> Result<Name, Stop> {
        match self {
            Tree::Word(word) => Ok(word.share()?),
            Tree::Group(_) => Err(Stop::Unreadable),
        }
    }
}

/// The letters of a name, or none.
pub fn text(name: &Name) -> &str {
    str::from_utf8(name.as_slice()).unwrap_or("")
}

/// Whether the row has that answer: `yes` or `no`.
pub fn says(answer: &Tree, yes: bool) -> bool {
    answer.word() == if yes { "yes" } else { "no" }
}

/// The tree at that place.
pub fn part(trees: &[Tree], place: usize) -> Result<&Tree, Stop> {
    match trees.get(place) {
        Some(tree) => Ok(tree),
        None => Err(Stop::Unreadable),
    }
}

/// The trees read so far, those of the groups that are open, and the word that is being read.
#[derive(Drop)]
struct Reader {
    here: Vec<Tree>,
    open: Vec<Vec<Tree>>,
    word: Vec<u8>,
}

impl Reader {
    fn end_word(&mut self, alloc: Global) -> Result<(), Stop> {
        if self.word.is_empty() {
            return Ok(());
        }
        let word = mem::replace(&mut self.word, Vec::new(alloc));
        self.here.push(Tree::Word(Name::new(alloc, word)?))?;
        Ok(())
    }

    fn close(&mut self) -> Result<(), Stop> {
        let Some(outer) = self.open.pop() else {
            return Err(Stop::Unreadable);
        };
        let inner = mem::replace(&mut self.here, outer);
        self.here.push(Tree::Group(Items::from_vec(inner)))?;
        Ok(())
    }

    fn take(&mut self, alloc: Global, byte: u8) -> Result<(), Stop> {
        match byte {
            b' ' => self.end_word(alloc),
            b'(' => {
                self.end_word(alloc)?;
                let outer = mem::replace(&mut self.here, Vec::new(alloc));
                self.open.push(outer)?;
                Ok(())
            }
            b')' => {
                self.end_word(alloc)?;
                self.close()
            }
            _ => {
                self.word.push(byte)?;
                Ok(())
            }
        }
    }
}

/// The trees of a line, of which `#` and what follows is no part.
pub fn trees_of(alloc: Global, line: &[u8]) -> Result<Vec<Tree>, Stop> {
    let mut reader = Reader {
        here: Vec::new(alloc),
        open: Vec::new(alloc),
        word: Vec::new(alloc),
    };
    'bytes: for byte in line {
        if *byte == b'#' {
            break;
        }
        reader.take(alloc, *byte)?;
    }
    reader.end_word(alloc)?;
    if !reader.open.is_empty() {
        return Err(Stop::Unreadable);
    }
    Ok(reader.here)
}
