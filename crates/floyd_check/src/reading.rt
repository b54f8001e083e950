//! The three files of a module, cut into tokens and read, and a source elaborated.
ghost use Rattle.std.specs.Prelude.{◌≡◌, ◌≤◌, length};
ghost use Rattle.floyd_lex.specs.declared.kinds.FileKind.TheVariants as kind;
ghost use Rattle.floyd_check_stub.specs.Forms.{IsScript, IsSpec};
ghost use Rattle.floyd_check.specs.CheckedClauses.{Answers, halt_in as halt_in_lem, said_in};
ghost use Rattle.floyd_check.specs.FileReading as spec;
ghost use Rattle.floyd_check.specs.FileReading.{ReadsFile, ReadsSource};
ghost use Rattle.floyd_text.specs.Outside.{max_file};

use crate::modules::first_place;
use floyd_check_stub::{main_in, read_script, read_spec};
use floyd_clight::StmtList;
use floyd_cparse::parse;
use floyd_elab::elaborate;
use floyd_lex::{FileKind, tokens};
use floyd_stub_goal::Proof;
use floyd_text::{Code, Halt, Refusal, Shown};
use std::alloc::Global;

/// The refusal of a file of a form that is not built.
fn not_built(file: u32) -> Refusal
    ensures { result ≡ spec.not_built file }
{
    Refusal::at(Code::NotBuilt, first_place(file), Shown::Nothing)
}

/// The statements of the `main` that a source is.
pub(crate) fn source_in(alloc: Global, bytes: &[u8]) -> Result<StmtList, Halt>
    requires { length bytes.now ≤ max_file }
    ensures { Answers (ReadsSource bytes.now) result }
{
    let list = tokens(alloc, FileKind::Source, 1, bytes)?;
    let tree = parse(alloc, 1, bytes, &list)?;
    let unit = elaborate(alloc, 1, &tree)?;
    match main_in(alloc, &unit)? {
        Some(statements) => Ok(statements),
        None => Err(Halt::Refused(not_built(1))),
    }
}

/// The number that main returns by its specification.
pub(crate) fn spec_in(alloc: Global, bytes: &[u8]) -> Result<u32, Halt>
    requires { length bytes.now ≤ max_file }
    ensures { Answers (ReadsFile IsSpec kind.Spec 2 bytes.now) result }
{
    let list = tokens(alloc, FileKind::Spec, 2, bytes)?;
    match read_spec(bytes, &list) {
        Some(value) => Ok(value),
        None => Err(Halt::Refused(not_built(2))),
    }
}

/// The proof of main that a script has.
pub(crate) fn script_in(alloc: Global, bytes: &[u8]) -> Result<Proof, Halt>
    requires { length bytes.now ≤ max_file }
    ensures { Answers (ReadsFile IsScript kind.Script 3 bytes.now) result }
{
    let list = tokens(alloc, FileKind::Script, 3, bytes)?;
    match read_script(alloc, bytes, &list)? {
        Some(proof) => Ok(proof),
        None => Err(Halt::Refused(not_built(3))),
    }
}

/// The answer of a call that reads the file of this number.
pub(crate) fn in_file<T>(file: u32, answer: Result<T, Halt>) -> Result<T, Halt>
    ensures { result ≡ said_in file answer }
{
    match answer {
        Ok(value) => Ok(value),
        Err(halt) => Err(halt_in(file, halt)),
    }
}

/// The same halt, in that file.
fn halt_in(file: u32, mut halt: Halt) -> Halt
    ensures { result ≡ halt_in_lem file halt }
{
    match &mut halt {
        Halt::Refused(refusal) => refusal.place.file = file,
        Halt::Memory => {}
    }
    halt
}
