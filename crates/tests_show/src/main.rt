//! The texts of the goals of a table, as the rows of `data/goals.txt` have them.
#![tactic(auto)]

mod statements;
mod texts;

use floyd_text::Bytes;
use std::alloc::Global;
use std::marker::Brand;
use std::sync::ledger::Blank;
use std::{fs, io};
use tests_terms::{Stop, trees_of};
use texts::text_of;

/// The text of the goal of a line, if it has one.
fn shown(alloc: Global, line: &str) -> Result<Option<Bytes>, Stop> {
    let row = trees_of(alloc, line.as_bytes())?;
    if row.is_empty() {
        return Ok(None);
    }
    Ok(Some(text_of::<Brand>(alloc, row.as_slice(), Blank::new(1))?))
}

/// Shows the goal of each row of a file.
fn show_rows(rt: &HostRuntime, name: &str) -> io::Result<()> {
    let text = fs::read_to_string(rt, name)?;
    'lines: for line in text.lines() {
        match shown(rt.alloc(), line) {
            Ok(Some(text)) => {
                let text = str::from_utf8(text.as_slice()).unwrap_or("no text");
                print!(rt; "{text}")?;
            }
            Ok(None) => {}
            Err(stop) => {
                let word = stop.word();
                println!(rt; "{word}: {line}")?;
            }
        }
    }
    Ok(())
}

fn main(rt: HostRuntime) -> io::Result<()> {
    show_rows(&rt, "goals.txt")
}
