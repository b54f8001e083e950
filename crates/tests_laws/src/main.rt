//! Rows of a table about laws, as a file of `data/` has them: each row says what a law says of its terms, or how it is
//! refused. Rows that answer otherwise are printed, and how many agree.
#![tactic(auto)]

mod arguments;
mod printing;
mod rows;

use rows::agrees;
use std::alloc::{AllocError, Global};
use std::marker::Brand;
use std::sync::ledger::Blank;
use std::{fs, io};

/// Whether a line's row answers as it says. A line without a row says nothing.
fn judge(alloc: Global, line: &str) -> Result<Option<bool>, AllocError> {
    if line.is_empty() || line.starts_with("#") {
        return Ok(None);
    }
    Ok(Some(agrees::<Brand>(alloc, line.as_bytes(), Blank::new(1))?))
}

fn main(rt: HostRuntime) -> io::Result<()> {
    let text = fs::read_to_string(&rt, "laws.txt")?;
    let mut count = 0u64;
    'lines: for line in text.lines() {
        match judge(rt.alloc(), line)? {
            Some(true) => count = count.saturating_add(1),
            Some(false) => println!(rt; "answers otherwise: {line}")?,
            None => {}
        }
    }
    println!(rt; "{count} rows agree")
}
