//! Rows of tables about the commands on statements, as the files of `data/` have them: each row says what a command makes of a
//! goal, or adds a struct. Rows that answer otherwise are printed, and how many agree.
#![tactic(auto)]

mod commands;
mod rows;

use floyd_assert::Defs;
use rows::agrees;
use std::alloc::Global;
use std::marker::Brand;
use std::sync::ledger::Blank;
use std::{fs, io};
use tests_goals::{add_struct, no_defs};
use tests_terms::{Stop, Tree, trees_of};

/// Whether a row answers as it says.
fn judge(alloc: Global, defs: &Defs, row: &[Tree]) -> Result<bool, Stop> {
    agrees::<Brand>(alloc, defs, row, Blank::new(1))
}

/// Whether a line's row answers as it says. A line without a row, or with a struct, says nothing.
fn take(alloc: Global, defs: &mut Defs, line: &str) -> Result<Option<bool>, Stop> {
    let row = trees_of(alloc, line.as_bytes())?;
    match row.as_slice() {
        [] => Ok(None),
        [first, rest @ ..] if first.word() == "struct" => {
            add_struct(alloc, &mut defs.structs, rest)?;
            Ok(None)
        }
        row => Ok(Some(judge(alloc, defs, row)?)),
    }
}

/// Tries each row of a file.
fn try_rows(rt: &HostRuntime, name: &str) -> io::Result<()> {
    let text = fs::read_to_string(rt, name)?;
    let mut defs = no_defs(rt.alloc());
    let mut count = 0u64;
    'lines: for line in text.lines() {
        match take(rt.alloc(), &mut defs, line) {
            Ok(Some(true)) => count = count.saturating_add(1),
            Ok(None) => {}
            Ok(Some(false)) => println!(rt; "{name}: answers otherwise: {line}")?,
            Err(stop) => {
                let word = stop.word();
                println!(rt; "{name}: {word}: {line}")?;
            }
        }
    }
    println!(rt; "{name}: {count} rows agree")
}

fn main(rt: HostRuntime) -> io::Result<()> {
    try_rows(&rt, "forward.txt")?;
    try_rows(&rt, "branches.txt")?;
    try_rows(&rt, "loops.txt")?;
    try_rows(&rt, "switches.txt")
}
