//! Rows of the tables in `data/`: a small source of C, and the type, the Clight or the refusal that it gives. The head of
//! each file says how a row is written. Each row that answers otherwise is printed, and for each file how many agreed.
#![tactic(auto)]

mod printing;
mod rows;
mod typing;
mod units;

use rows::{Frame, other_answer};
use std::alloc::{AllocError, Global};
use std::{fs, io};

/// How a line's row answers.
#[derive(Drop)]
enum Verdict {
    NoRow,
    Agrees,
    Otherwise(String),
}

fn judge(alloc: Global, frame: &mut Frame, line: &str) -> Result<Verdict, AllocError> {
    if line.starts_with("//") {
        return Ok(Verdict::NoRow);
    }
    if line.starts_with('%') {
        frame.follow(line)?;
        return Ok(Verdict::NoRow);
    }
    let Some((text, wanted)) = line.split_once('#') else {
        return Ok(Verdict::NoRow);
    };
    match other_answer(alloc, frame, text, wanted)? {
        Some(answer) => Ok(Verdict::Otherwise(answer)),
        None => Ok(Verdict::Agrees),
    }
}

/// Tries each row of a file.
fn try_rows(rt: &HostRuntime, name: &str) -> io::Result<()> {
    let text = fs::read_to_string(rt, name)?;
    let mut frame = Frame::new(rt.alloc());
    let mut count = 0u64;
    'lines: for line in text.lines() {
        match judge(rt.alloc(), &mut frame, line)? {
            Verdict::NoRow => {}
            Verdict::Agrees => count = count.saturating_add(1),
            Verdict::Otherwise(answer) => println!(rt; "{name}: {line}\n but {answer}")?,
        }
    }
    println!(rt; "{name}: {count} rows agree")
}

fn main(rt: HostRuntime) -> io::Result<()> {
    'files: for name in [
        "types.txt",
        "bodies.txt",
        "operators.txt",
        "locals.txt",
        "units.txt",
        "refusals.txt",
    ] {
        try_rows(&rt, name)?;
    }
    Ok(())
}
