//! What is asked of texts, and what the reader answers.
ghost use Rattle.std.specs.Prelude.{◌<◌, ◌^◌, length};

use floyd_lex::{FileKind, tokens};
use floyd_script::{Command, Proof, Script, read_script};
use floyd_text::{Halt, Place, Refusal, Shown, place_of};
use std::alloc::{AllocError, Global};

/// The number of each text's file.
pub(crate) const FILE: u32 = 7;

/// What is asked of a text.
#[derive(Clone, Copy)]
pub(crate) enum Question {
    /// Whether it reads as a script.
    Read,
    /// The proofs that it reads as, and the commands of each.
    Show,
    /// Whether each beginning of it reads, or is refused at its end alone.
    Begin,
    Unknown,
}

impl Question {
    /// The question of a heading.
    pub(crate) fn of(words: &str) -> Question {
        match words.as_bytes() {
            b"read" => Question::Read,
            b"show" => Question::Show,
            b"begin" => Question::Begin,
            _ => Question::Unknown,
        }
    }
}

/// How a place is written.
pub(crate) fn at(alloc: Global, place: Place) -> Result<String, AllocError> {
    format!(in alloc; " at {}:{}:{}", place.file, place.line, place.column)
}

/// The answer: what is found, or the code, name and place of the refusal.
pub(crate) fn answer(
    alloc: Global,
    question: Question,
    bytes: &[u8],
) -> Result<String, AllocError> {
    if bytes.len() >= 1 << 32 {
        return "too long".to_string(alloc);
    }
    match found(alloc, question, bytes) {
        Ok(text) => Ok(text),
        Err(halt) => stop(alloc, &halt),
    }
}

fn stop(alloc: Global, halt: &Halt) -> Result<String, AllocError> {
    match halt {
        Halt::Refused(refusal) => refusal_text(alloc, refusal),
        Halt::Memory => "no memory".to_string(alloc),
    }
}

fn add_name(text: &mut String, name: &[u8]) -> Result<(), AllocError> {
    'name: for b in name {
        text.push(*b as char)?;
    }
    Ok(())
}

fn refusal_text(alloc: Global, refusal: &Refusal) -> Result<String, AllocError> {
    let mut text = format!(in alloc; "{}", refusal.code.number())?;
    if let Shown::Name(name) = &refusal.shown {
        text.push(' ')?;
        add_name(&mut text, name.as_slice())?;
    }
    text.push_str(at(alloc, refusal.place)?.as_str())?;
    Ok(text)
}

fn found(alloc: Global, question: Question, bytes: &[u8]) -> Result<String, Halt>
    requires { length bytes.now < 2 ^ 32 }
{
    match question {
        Question::Read => {
            read(alloc, bytes)?;
            Ok("reads".to_string(alloc)?)
        }
        Question::Show => Ok(shown(alloc, &read(alloc, bytes)?)?),
        Question::Begin => begin(alloc, bytes),
        Question::Unknown => Ok("no question".to_string(alloc)?),
    }
}

fn read(alloc: Global, bytes: &[u8]) -> Result<Script, Halt>
    requires { length bytes.now < 2 ^ 32 }
{
    let list = tokens(alloc, FileKind::Script, FILE, bytes)?;
    if list.len() >= 1 << 32 {
        return Err(Halt::Memory);
    }
    read_script(alloc, FILE, bytes, &list)
}

/// Each proof's name and place, its commands, and the place of its end.
fn shown(alloc: Global, script: &Script) -> Result<String, AllocError> {
    let mut text = String::new(alloc);
    'proofs: for proof in script.as_slice() {
        add_proof(alloc, &mut text, proof)?;
    }
    Ok(text)
}

fn add_proof(alloc: Global, text: &mut String, proof: &Proof) -> Result<(), AllocError> {
    add_name(text, proof.name.as_slice())?;
    text.push_str(spot(alloc, proof.place)?.as_str())?;
    'commands: for command in proof.commands.as_slice() {
        add_command(alloc, text, command)?;
    }
    text.push_str(" QED")?;
    text.push_str(spot(alloc, proof.end)?.as_str())?;
    text.push_str(". ")
}

/// A line and a column.
fn spot(alloc: Global, place: Place) -> Result<String, AllocError> {
    format!(in alloc; " {}:{}", place.line, place.column)
}

/// The word of a command, its place, and how many tokens it has.
fn add_command(alloc: Global, text: &mut String, command: &Command) -> Result<(), AllocError> {
    text.push_str(", ")?;
    text.push_str(command.rule.word().unwrap_or("none"))?;
    text.push_str(spot(alloc, command.place)?.as_str())?;
    let count = format!(in alloc; "+{}", command.tokens.len())?;
    text.push_str(count.as_str())
}

/// Whether the text reads, or is refused at its end.
fn may_go_on(alloc: Global, bytes: &[u8]) -> bool
    requires { length bytes.now < 2 ^ 32 }
{
    match read(alloc, bytes) {
        Ok(_) => true,
        Err(halt) => is_at_end(&halt, bytes),
    }
}

fn is_at_end(halt: &Halt, bytes: &[u8]) -> bool {
    match halt {
        Halt::Refused(refusal) => refusal.code.number() == 601
            && refusal.place == place_of(FILE, bytes, bytes.len()),
        Halt::Memory => false,
    }
}

fn begin(alloc: Global, bytes: &[u8]) -> Result<String, Halt>
    requires { length bytes.now < 2 ^ 32 }
{
    let list = tokens(alloc, FileKind::Script, FILE, bytes)?;
    'each: for index in 0..list.len() {
        let (_, end) = list.span(index);
        if !may_go_on(alloc, &bytes[..bytes.len().min(end as usize)]) {
            return Ok(format!(in alloc; "stops behind token {index}")?);
        }
    }
    Ok("goes on".to_string(alloc)?)
}
