//! The program floyd: the command line over files and standard output.
#![tactic(auto)]

mod file_shelf;
mod out_sink;

use file_shelf::FileShelf;
use floyd_cli::floyd;
use out_sink::OutSink;
use std::alloc::{AllocError, Global};
use std::env::{self, Args};
use std::io::ErrorKind;
use std::process::ExitCode;

/// The number with which the program ends where memory ran out.
const NO_MEMORY: u8 = 5;

/// The number with which the program ends where it cannot have its words.
const NO_WORDS: u8 = 6;

/// The words after the program's name.
fn words_of(alloc: Global, args: Args) -> Result<Vec<String>, AllocError> {
    let mut words = Vec::new(alloc);
    for word in args.skip(1) {
        words.push(word)?;
    }
    Ok(words)
}

fn main(rt: HostRuntime) -> ExitCode {
    let args = match env::args(&rt) {
        Ok(args) => args,
        Err(e) if e.kind() == ErrorKind::OutOfMemory => return ExitCode::from(NO_MEMORY),
        Err(_) => return ExitCode::from(NO_WORDS),
    };
    let alloc = rt.alloc();
    let Ok(words) = words_of(alloc, args) else {
        return ExitCode::from(NO_MEMORY);
    };
    let mut sink = OutSink::new(rt.stdout());
    let mut shelf = FileShelf::new(alloc, rt);
    let status = floyd(alloc, &words, &mut shelf, &mut sink);
    ExitCode::from(status.number())
}
