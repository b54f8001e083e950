//! Texts, and what they are cut into and read as, by the tables in `data/`, whose heads say their form. Each row that is
//! answered otherwise is printed, and at the end how many agreed.
#![tactic(auto)]

mod answers;
mod rows;
mod texts;

use answers::{Question, answer};
use rows::agree;
use std::{fs, io};

const TABLES: [&str; 8] = [
    "tokens.txt",
    "kinds.txt",
    "declarations.txt",
    "types.txt",
    "statements.txt",
    "expressions.txt",
    "depth.txt",
    "beginnings.txt",
];

/// Whole files, each of which reads.
const PAGES: [&str; 3] = ["list.c", "ring.c", "search.c"];

fn main(rt: HostRuntime) -> io::Result<()> {
    let alloc = rt.alloc();
    let mut report = String::new(alloc);
    let mut agreed: u64 = 0;
    'tables: for name in TABLES {
        let table = fs::read_to_string(&rt, name)?;
        agreed = agreed.saturating_add(agree(alloc, table.as_str(), &mut report)?);
    }
    print!(rt; "{report}")?;
    println!(rt; "{agreed} rows agreed")?;
    'pages: for name in PAGES {
        let page = fs::read(&rt, name)?;
        println!(rt;
            "{name} {}",
            answer(alloc, Question::Read, page.as_slice())?
        )?;
    }
    Ok(())
}
