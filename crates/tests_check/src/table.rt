use crate::row::{Row, file};
use floyd_text::NamedFile;
use std::alloc::{AllocError, Global};

/// The table so far: the files that each row has, the row that is read, and what the rows before it came to.
#[derive(Drop)]
pub struct Table {
    standard: Vec<NamedFile>,
    row: Row,
    agreed: u64,
    report: String,
}

impl Table {
    pub fn new(alloc: Global) -> Table {
        Table {
            standard: Vec::new(alloc),
            row: Row::new(alloc),
            agreed: 0,
            report: String::new(alloc),
        }
    }

    /// Takes the next block.
    pub fn take(&mut self, alloc: Global, block: &str) -> Result<(), AllocError> {
        let (heading, text) = parts(block, '\n');
        let (word, rest) = parts(heading, ' ');
        match word.as_bytes() {
            b"standard" => {
                let standard = file(alloc, rest, text, end_of(text))?;
                self.standard.push(standard)?;
                Ok(())
            }
            b"row" => {
                self.row = Row::of(alloc, rest)?;
                Ok(())
            }
            b"answer" => self.judge(alloc, rest, text, end_of(text)),
            b"part" => self.judge(alloc, rest, text, ""),
            _ => self.row.take(alloc, word, rest, text),
        }
    }

    /// Compares what the row answers with what is wanted.
    fn judge(
        &mut self,
        alloc: Global,
        status: &str,
        text: &str,
        end: &str,
    ) -> Result<(), AllocError> {
        let wanted = format!(in alloc; "{status} {text}{end}")?;
        let answer = self.row.answer(alloc, self.standard.as_slice())?;
        if answer == wanted {
            self.agreed = self.agreed.saturating_add(1);
            return Ok(());
        }
        let words = self.row.words();
        let line = format!(in alloc; "{words}: {answer}; wanted: {wanted}\n")?;
        self.report.push_str(line.as_str())
    }

    pub fn agreed(&self) -> u64 {
        self.agreed
    }

    /// The rows that were answered otherwise.
    pub fn report(&self) -> &str {
        self.report.as_str()
    }
}

/// What stands before the first such character, and what behind it.
fn parts(text: &str, at: char) -> (&str, &str) {
    text.split_once(at).unwrap_or((text, ""))
}

/// The end of the last line of a text, where it has lines.
fn end_of(text: &str) -> &'static str {
    if text.is_empty() { "" } else { "\n" }
}
