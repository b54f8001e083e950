//! Texts of terms, formulas, types, paths and assertions, and what they read as, by the tables in `data/`, whose heads say their form.
//! Each row that is answered otherwise is printed, and at the end how many agreed.
#![tactic(auto)]

mod answers;
mod rows;
mod sorts;
mod texts;
mod world;

use floyd_termread::Scope;
use rows::agree;
use std::{fs, io};
use world::{World, world_of};

const TABLES: [&str; 4] = ["terms.txt", "formulas.txt", "types.txt", "assertions.txt"];

fn main(rt: HostRuntime) -> io::Result<()> {
    let alloc = rt.alloc();
    let names = fs::read_to_string(&rt, "scope.txt")?;
    let World {
        variables,
        defs,
        specs,
    } = world_of(alloc, names.as_str())?;
    let scope = Scope {
        variables,
        defs: &defs,
        specs: &specs,
        locals: None,
    };
    let mut report = String::new(alloc);
    let mut agreed: u64 = 0;
    'tables: for name in TABLES {
        let table = fs::read_to_string(&rt, name)?;
        agreed = agreed.saturating_add(agree(alloc, &scope, table.as_str(), &mut report)?);
    }
    print!(rt; "{report}")?;
    println!(rt; "{agreed} rows agreed")?;
    Ok(())
}
