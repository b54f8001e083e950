//! Rows of tables about integers, bytes, types and statements, as the files of `data/` have them: each row says what a call
//! answers. Rows that answer otherwise are printed, and how many agree.
#![tactic(auto)]

mod bytes;
mod layouts;
mod operators;
mod statements;
mod words;

use floyd_ctypes::StructTable;
use std::alloc::Global;
use std::{fs, io};
use words::{Stop, words_of};

/// The tables.
#[derive(Clone, Copy)]
enum Table {
    Operators,
    Casts,
    Bytes,
    Scalars,
    Layout,
    Statements,
}

impl Table {
    fn file(self) -> &'static str {
        match self {
            Table::Operators => "operators.txt",
            Table::Casts => "casts.txt",
            Table::Bytes => "bytes.txt",
            Table::Scalars => "scalars.txt",
            Table::Layout => "layout.txt",
            Table::Statements => "statements.txt",
        }
    }

    /// Whether the row answers as it says. Structs are kept for the rows after it.
    fn agrees(self, alloc: Global, structs: &mut StructTable, row: &[&str]) -> Result<bool, Stop> {
        match self {
            Table::Operators => operators::agrees(row),
            Table::Casts => operators::cast_agrees(row),
            Table::Bytes => bytes::agrees(row),
            Table::Scalars => layouts::scalar_agrees(alloc, row),
            Table::Layout => layouts::agrees(alloc, structs, row),
            Table::Statements => statements::agrees(alloc, row),
        }
    }
}

/// Whether a line's row answers as it says. A line without a row says nothing.
fn judge(
    alloc: Global,
    table: Table,
    structs: &mut StructTable,
    line: &str,
) -> Result<Option<bool>, Stop> {
    if line.is_empty() || line.starts_with('#') {
        return Ok(None);
    }
    let row = words_of(alloc, line)?;
    Ok(Some(table.agrees(alloc, structs, row.as_slice())?))
}

/// Tries each row of a table.
fn try_rows(rt: &HostRuntime, table: Table) -> io::Result<()> {
    let name = table.file();
    let text = fs::read_to_string(rt, name)?;
    let mut structs = StructTable::new(rt.alloc());
    let mut count = 0u64;
    'lines: for line in text.lines() {
        match judge(rt.alloc(), table, &mut structs, line) {
            Ok(Some(true)) => count = count.saturating_add(1),
            Ok(None) => {}
            Ok(Some(false)) => println!(rt; "{name}: answers otherwise: {line}")?,
            Err(Stop::Unreadable) => println!(rt; "{name}: unreadable: {line}")?,
            Err(Stop::Memory) => println!(rt; "{name}: no memory: {line}")?,
        }
    }
    println!(rt; "{name}: {count} rows agree")
}

fn main(rt: HostRuntime) -> io::Result<()> {
    try_rows(&rt, Table::Operators)?;
    try_rows(&rt, Table::Casts)?;
    try_rows(&rt, Table::Bytes)?;
    try_rows(&rt, Table::Scalars)?;
    try_rows(&rt, Table::Layout)?;
    try_rows(&rt, Table::Statements)
}
