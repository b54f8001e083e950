//! Rows of tables about expressions, as the files of `data/` have them: each row says what an expression stands for under
//! an assertion, or where its object lies. Rows that answer otherwise are printed, and how many agree.
#![tactic(auto)]

mod rows;
mod structs;

use floyd_assert::{Defs, Names, Table};
use floyd_ctypes::StructTable;
use rows::agrees;
use std::alloc::Global;
use std::marker::Brand;
use std::sync::ledger::Blank;
use std::{fs, io};
use tests_terms::{Stop, trees_of};

fn no_defs(alloc: Global) -> Defs {
    Defs {
        structs: StructTable::new(alloc),
        globals: Names::new(alloc),
        funs: Table::new(alloc),
        preds: Table::new(alloc),
        lemmas: Table::new(alloc),
        proved: Names::new(alloc),
        home: 0,
    }
}

/// Whether a line's row answers as it says. A line without a row says nothing.
fn judge(alloc: Global, defs: &mut Defs, line: &str) -> Result<Option<bool>, Stop> {
    let row = trees_of(alloc, line.as_bytes())?;
    if row.is_empty() {
        return Ok(None);
    }
    Ok(Some(agrees::<Brand>(alloc, defs, row.as_slice(), Blank::new(1))?))
}

/// Tries each row of a file.
fn try_rows(rt: &HostRuntime, name: &str) -> io::Result<()> {
    let text = fs::read_to_string(rt, name)?;
    let mut defs = no_defs(rt.alloc());
    let mut count = 0u64;
    'lines: for line in text.lines() {
        match judge(rt.alloc(), &mut defs, line) {
            Ok(Some(true)) => count = count.saturating_add(1),
            Ok(None) => {}
            Ok(Some(false)) => println!(rt; "{name}: answers otherwise: {line}")?,
            Err(stop) => {
                let word = stop.word();
                println!(rt; "{name}: {word}: {line}")?;
            }
        }
    }
    println!(rt; "{name}: {count} rows agree")
}

fn main(rt: HostRuntime) -> io::Result<()> {
    try_rows(&rt, "integers.txt")?;
    try_rows(&rt, "pointers.txt")?;
    try_rows(&rt, "objects.txt")
}
