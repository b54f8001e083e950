//! Rows of tables about paths of fields and subscripts, and about terms that are folded, as the files of `data/` have them:
//! each row says what a call answers, or adds a struct. Rows that answer otherwise are printed, and how many agree.
#![tactic(auto)]

mod completing;
mod rows;
mod structs;

use floyd_ctypes::StructTable;
use rows::agrees;
use std::alloc::Global;
use std::marker::Brand;
use std::sync::ledger::Blank;
use std::{fs, io};
use structs::add_struct;
use tests_terms::{Stop, Tree, trees_of};

/// Whether a row answers as it says.
fn judge(alloc: Global, structs: &StructTable, row: &[Tree]) -> Result<bool, Stop> {
    agrees::<Brand>(alloc, structs, row, Blank::new(1))
}

/// Whether a line's row answers as it says. A line without a row, or with a struct, says nothing.
fn take(alloc: Global, structs: &mut StructTable, line: &str) -> Result<Option<bool>, Stop> {
    let row = trees_of(alloc, line.as_bytes())?;
    match row.as_slice() {
        [] => Ok(None),
        [first, rest @ ..] if first.word() == "struct" => {
            add_struct(alloc, structs, rest)?;
            Ok(None)
        }
        row => Ok(Some(judge(alloc, structs, row)?)),
    }
}

/// Tries each row of a file.
fn try_rows(rt: &HostRuntime, name: &str) -> io::Result<()> {
    let text = fs::read_to_string(rt, name)?;
    let mut structs = StructTable::new(rt.alloc());
    let mut count = 0u64;
    'lines: for line in text.lines() {
        match take(rt.alloc(), &mut structs, line) {
            Ok(Some(true)) => count = count.saturating_add(1),
            Ok(None) => {}
            Ok(Some(false)) => println!(rt; "{name}: answers otherwise: {line}")?,
            Err(stop) => {
                let word = stop.word();
                println!(rt; "{name}: {word}: {line}")?;
            }
        }
    }
    println!(rt; "{name}: {count} rows agree")
}

fn main(rt: HostRuntime) -> io::Result<()> {
    try_rows(&rt, "paths.txt")?;
    try_rows(&rt, "folding.txt")
}
