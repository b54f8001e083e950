//! Rows of tables about the commands on formulas, as the files of `data/` have them: each row says what a command makes of a
//! goal. Rows that answer otherwise are printed, and how many agree.
#![tactic(auto)]

mod answers;
mod arguments;
mod commands;
mod goals;
mod known;
mod rows;
mod same;
mod scoped;

use rows::agrees;
use std::alloc::Global;
use std::marker::Brand;
use std::sync::ledger::Blank;
use std::{fs, io};
use tests_terms::{Stop, trees_of};

/// Whether a line's row answers as it says. A line without a row says nothing.
fn judge(alloc: Global, line: &str) -> Result<Option<bool>, Stop> {
    let row = trees_of(alloc, line.as_bytes())?;
    if row.is_empty() {
        return Ok(None);
    }
    Ok(Some(agrees::<Brand>(alloc, row.as_slice(), Blank::new(1))?))
}

/// Tries each row of a file.
fn try_rows(rt: &HostRuntime, name: &str) -> io::Result<()> {
    let text = fs::read_to_string(rt, name)?;
    let mut count = 0u64;
    'lines: for line in text.lines() {
        match judge(rt.alloc(), line) {
            Ok(Some(true)) => count = count.saturating_add(1),
            Ok(None) => {}
            Ok(Some(false)) => println!(rt; "{name}: answers otherwise: {line}")?,
            Err(stop) => {
                let word = stop.word();
                println!(rt; "{name}: {word}: {line}")?;
            }
        }
    }
    println!(rt; "{name}: {count} rows agree")
}

fn main(rt: HostRuntime) -> io::Result<()> {
    try_rows(&rt, "formulas.txt")?;
    try_rows(&rt, "quantifiers.txt")?;
    try_rows(&rt, "capture.txt")?;
    try_rows(&rt, "cases.txt")?;
    try_rows(&rt, "rewriting.txt")?;
    try_rows(&rt, "simplifying.txt")?;
    try_rows(&rt, "laws.txt")?;
    try_rows(&rt, "sides.txt")?;
    try_rows(&rt, "costs.txt")
}
