//! Rows of tables about items and specifications, as the files of `data/` have them: each row adds a FUN, a PRED or a lemma,
//! or says whether the items of a file are well formed, or whether two specifications are the same. Rows that answer otherwise
//! are printed, and how many agree.
#![tactic(auto)]

mod items;
mod rows;
mod specs;

use floyd_assert_trees::Defs;
use rows::judged;
use std::alloc::Global;
use std::marker::Brand;
use std::sync::ledger::Blank;
use std::{fs, io};
use tests_goals::no_defs;
use tests_terms::{Stop, trees_of};

/// Whether a line's row answers as it says. A line without a row, or with an item, says nothing.
fn take(alloc: Global, defs: &mut Defs, line: &str) -> Result<Option<bool>, Stop> {
    let row = trees_of(alloc, line.as_bytes())?;
    if row.is_empty() {
        return Ok(None);
    }
    judged::<Brand>(alloc, defs, row.as_slice(), Blank::new(1))
}

/// Tries each row of a file.
fn try_rows(rt: &HostRuntime, name: &str) -> io::Result<()> {
    let text = fs::read_to_string(rt, name)?;
    let mut defs = no_defs(rt.alloc());
    let mut count = 0u64;
    'lines: for line in text.lines() {
        match take(rt.alloc(), &mut defs, line) {
            Ok(Some(true)) => count = count.saturating_add(1),
            Ok(None) => {}
            Ok(Some(false)) => println!(rt; "{name}: answers otherwise: {line}")?,
            Err(stop) => {
                let word = stop.word();
                println!(rt; "{name}: {word}: {line}")?;
            }
        }
    }
    println!(rt; "{name}: {count} rows agree")
}

fn main(rt: HostRuntime) -> io::Result<()> {
    try_rows(&rt, "items.txt")?;
    try_rows(&rt, "specs.txt")
}
