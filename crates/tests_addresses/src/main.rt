//! The flags of local variables, by the table in `data/`, whose head says its form. Each row that is answered otherwise is
//! printed, and at the end how many agreed.
#![tactic(auto)]

mod rows;

use rows::{Verdict, judge};
use std::{fs, io};

fn main(rt: HostRuntime) -> io::Result<()> {
    let table = fs::read_to_string(&rt, "bodies.txt")?;
    let mut count = 0u64;
    'lines: for line in table.lines() {
        match judge(rt.alloc(), line)? {
            Verdict::NoRow => {}
            Verdict::Agrees => count = count.saturating_add(1),
            Verdict::Otherwise => println!(&rt; "otherwise: {line}")?,
        }
    }
    println!(&rt; "{count} rows agreed, each as it stands and in braces")
}
