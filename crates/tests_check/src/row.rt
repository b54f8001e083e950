use floyd_cli::floyd;
use floyd_text::{Bytes, MemShelf, MemSink, Name, NamedFile};
use std::alloc::{AllocError, Global};

/// The room of the output.
const ROOM: usize = 4096;

/// One run: its words, its files, which calls of the shelf and of the sink fail, and how many bytes the sink takes at once.
#[derive(Drop)]
pub struct Row {
    words: String,
    files: Vec<NamedFile>,
    shelf_fails: Vec<u64>,
    sink_fails: Vec<u64>,
    largest: usize,
}

impl Row {
    pub fn new(alloc: Global) -> Row {
        Row {
            words: String::new(alloc),
            files: Vec::new(alloc),
            shelf_fails: Vec::new(alloc),
            sink_fails: Vec::new(alloc),
            largest: ROOM,
        }
    }

    /// A run of these words.
    pub fn of(alloc: Global, words: &str) -> Result<Row, AllocError> {
        let mut row = Row::new(alloc);
        row.words = String::from_str(alloc, words)?;
        Ok(row)
    }

    pub fn words(&self) -> &str {
        self.words.as_str()
    }

    /// Takes a block of the row; what is none says nothing.
    pub fn take(
        &mut self,
        alloc: Global,
        word: &str,
        rest: &str,
        text: &str,
    ) -> Result<(), AllocError> {
        match word.as_bytes() {
            b"file" => self.add(file(alloc, rest, text, if text.is_empty() { "" } else { "\n" })?),
            b"cut" => self.add(file(alloc, rest, text, "")?),
            b"shelf" => add_number(&mut self.shelf_fails, rest),
            b"sink" => add_number(&mut self.sink_fails, rest),
            b"takes" => {
                self.largest = rest.parse::<usize>().unwrap_or(ROOM);
                Ok(())
            }
            _ => Ok(()),
        }
    }

    fn add(&mut self, file: NamedFile) -> Result<(), AllocError> {
        self.files.push(file)?;
        Ok(())
    }

    /// The status and the text that the run answers, over its own files and then these.
    pub fn answer(&self, alloc: Global, standard: &[NamedFile]) -> Result<String, AllocError> {
        let mut files = Vec::new(alloc);
        copy_files(alloc, &mut files, self.files.as_slice())?;
        copy_files(alloc, &mut files, standard)?;
        let mut shelf = MemShelf::new(files, self.shelf_fails.clone()?);
        let mut sink = MemSink::new(alloc, ROOM, self.largest.max(1), self.sink_fails.clone()?)?;
        let words = words_of(alloc, self.words.as_str())?;
        let status = floyd(alloc, &words, &mut shelf, &mut sink).number();
        match str::from_utf8(sink.text()) {
            Ok(text) => format!(in alloc; "{status} {text}"),
            Err(_) => format!(in alloc; "{status} and no text"),
        }
    }
}

/// A file of that name with this text and its end.
pub fn file(alloc: Global, name: &str, text: &str, end: &str) -> Result<NamedFile, AllocError> {
    let mut bytes = Bytes::from_slice(alloc, text.as_bytes())?;
    bytes.extend(end.as_bytes())?;
    Ok(NamedFile {
        name: Name::from_slice(alloc, name.as_bytes())?,
        bytes,
    })
}

fn add_number(numbers: &mut Vec<u64>, digits: &str) -> Result<(), AllocError> {
    numbers.push(digits.parse::<u64>().unwrap_or(0))?;
    Ok(())
}

fn copy_files(
    alloc: Global,
    all: &mut Vec<NamedFile>,
    files: &[NamedFile],
) -> Result<(), AllocError> {
    'file: for file in files {
        all.push(NamedFile {
            name: file.name.share()?,
            bytes: Bytes::from_slice(alloc, file.bytes.as_slice())?,
        })?;
    }
    Ok(())
}

fn words_of(alloc: Global, line: &str) -> Result<Vec<String>, AllocError> {
    let mut words = Vec::new(alloc);
    'word: for word in line.split_whitespace() {
        words.push(String::from_str(alloc, word)?)?;
    }
    Ok(words)
}
