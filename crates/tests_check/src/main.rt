//! Whole runs of the command line, by the table in `data/`, whose head says its form. Each row that is answered otherwise
//! is printed, and at the end how many agreed.
#![tactic(auto)]

mod row;
mod table;

use std::{fs, io};
use table::Table;

fn main(rt: HostRuntime) -> io::Result<()> {
    let alloc = rt.alloc();
    let text = fs::read_to_string(&rt, "cases.txt")?;
    let mut table = Table::new(alloc);
    'block: for block in text.split("\n== ") {
        table.take(alloc, block)?;
    }
    print!(rt; "{}", table.report())?;
    println!(rt; "{} rows agreed", table.agreed())?;
    Ok(())
}
