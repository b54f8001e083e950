//! Texts of scripts, and what they read as, by the tables in `data/`, whose heads say their form. Each row that is answered
//! otherwise is printed, and at the end how many agreed.
#![tactic(auto)]

mod answers;
mod rows;
mod texts;

use rows::agree;
use std::{fs, io};

const TABLES: [&str; 4] = [
    "commands.txt",
    "phrases.txt",
    "scripts.txt",
    "beginnings.txt",
];

fn main(rt: HostRuntime) -> io::Result<()> {
    let alloc = rt.alloc();
    let mut report = String::new(alloc);
    let mut agreed: u64 = 0;
    'tables: for name in TABLES {
        let table = fs::read_to_string(&rt, name)?;
        agreed = agreed.saturating_add(agree(alloc, table.as_str(), &mut report)?);
    }
    print!(rt; "{report}")?;
    println!(rt; "{agreed} rows agreed")?;
    Ok(())
}
