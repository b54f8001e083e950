//! From a row of a table to its source and the answer that it expects, and from a source to its answer.
use crate::printing::{print_body, print_name};
use crate::typing::type_in;
use crate::units::{print_defined, print_places, print_unit};
use floyd_clight::{ClightUnit, Defined};
use floyd_cparse::parse;
use floyd_cparse_trees::CUnit;
use floyd_elab::elaborate;
use floyd_lex::{FileKind, tokens};
use floyd_text::{Halt, Refusal, Shown, place_of};
use std::alloc::{AllocError, Global};
use std::fmt::Write;

/// What is shown of a source.
#[derive(Clone, Copy)]
pub(crate) enum View {
    /// The type of the expression that its function returns.
    Type,
    /// That there is a unit.
    Accepted,
    /// The body of its last function.
    Body,
    /// The same with the types of all expressions.
    Typed,
    /// Its last function.
    Function,
    /// All of it but its places.
    Whole,
    Places,
}

/// What stands before and behind each row, and what is shown of its source.
#[derive(Drop)]
pub(crate) struct Frame {
    front: String,
    back: String,
    view: View,
}

fn view_of(word: &str) -> View {
    match word {
        "type" => View::Type,
        "body" => View::Body,
        "typed" => View::Typed,
        "function" => View::Function,
        "whole" => View::Whole,
        "places" => View::Places,
        _ => View::Accepted,
    }
}

impl Frame {
    pub(crate) fn new(alloc: Global) -> Frame {
        Frame {
            front: String::new(alloc),
            back: String::new(alloc),
            view: View::Accepted,
        }
    }

    /// Changes what a line without a row says.
    pub(crate) fn follow(&mut self, line: &str) -> Result<(), AllocError> {
        let (word, text) = match line.split_once(' ') {
            Some((word, text)) => (word, text),
            None => (line, ""),
        };
        match word {
            "%view" => self.view = view_of(text),
            "%front" => set(&mut self.front, text)?,
            "%back" => set(&mut self.back, text)?,
            _ => {}
        }
        Ok(())
    }
}

fn set(text: &mut String, to: &str) -> Result<(), AllocError> {
    text.clear();
    text.push_str(to)
}

/// The tree of a source.
pub(crate) fn read(alloc: Global, bytes: &[u8]) -> Result<CUnit, Halt> {
    if bytes.len() >= 1 << 32 {
        return Err(Halt::Memory);
    }
    let list = tokens(alloc, FileKind::Source, 1, bytes)?;
    parse(alloc, 1, bytes, &list)
}

fn unit_of(alloc: Global, bytes: &[u8]) -> Result<ClightUnit, Halt> {
    let unit = read(alloc, bytes)?;
    elaborate(alloc, 1, &unit)
}

fn print_last(text: &mut String, view: View, f: &Defined) -> Result<(), AllocError> {
    match view {
        View::Body => print_body(text, false, &f.body),
        View::Typed => print_body(text, true, &f.body),
        _ => print_defined(text, f),
    }
}

fn print_view(text: &mut String, view: View, unit: &ClightUnit) -> Result<(), AllocError> {
    match view {
        View::Type | View::Accepted => text.push_str("accepted"),
        View::Whole => print_unit(text, unit),
        View::Places => print_places(text, unit),
        View::Body | View::Typed | View::Function => match unit.defined.as_slice() {
            [.., f] => print_last(text, view, f),
            [] => text.push_str("no function"),
        },
    }
}

/// The code of a refusal, its place, and the name that it shows.
fn print_refusal(text: &mut String, refusal: &Refusal) -> Result<(), AllocError> {
    let place = refusal.place;
    let code = refusal.code.number();
    write!(text, "{}:{}: {code}", place.line, place.column)?;
    match &refusal.shown {
        Shown::Nothing => Ok(()),
        Shown::Name(name) => {
            text.push(' ')?;
            print_name(text, name)
        }
        _ => text.push('?'),
    }
}

/// Shows what a source gives.
fn print_answer(alloc: Global, view: View, bytes: &[u8], text: &mut String) -> Result<(), Halt> {
    match view {
        View::Type => type_in(alloc, bytes, text),
        View::Accepted | View::Body | View::Typed | View::Function | View::Whole | View::Places => {
            let unit = unit_of(alloc, bytes)?;
            Ok(print_view(text, view, &unit)?)
        }
    }
}

/// What a source gives.
fn answer(alloc: Global, view: View, bytes: &[u8]) -> Result<String, AllocError> {
    let mut text = String::new(alloc);
    let done = print_answer(alloc, view, bytes, &mut text);
    match &done {
        Ok(()) => {}
        Err(Halt::Refused(refusal)) => print_refusal(&mut text, refusal)?,
        Err(Halt::Memory) => text.push_str("no memory")?,
    }
    Ok(text)
}

/// Adds a text, with its ends of lines.
fn add(all: &mut Vec<u8>, text: &str) -> Result<(), AllocError> {
    'bytes: for b in text.as_bytes() {
        all.push(if *b == b'$' { b'\n' } else { *b })?;
    }
    Ok(())
}

fn add_times(all: &mut Vec<u8>, times: u32, text: &str) -> Result<(), AllocError> {
    'times: for _ in 0..times {
        add(all, text)?;
    }
    Ok(())
}

/// Adds a part of a row's text. Between backquotes stand a number and a text that is repeated so many times.
fn expand(all: &mut Vec<u8>, part: &str) -> Result<(), AllocError> {
    let mut repeats = false;
    'pieces: for piece in part.split('`') {
        match piece.split_once(' ') {
            Some((times, text)) if repeats => {
                add_times(all, times.parse::<u32>().unwrap_or(0), text)?;
            }
            _ => add(all, piece)?,
        }
        repeats = !repeats;
    }
    Ok(())
}

/// The place of what follows, as a refusal shows it.
fn print_end(text: &mut String, all: &[u8]) -> Result<(), AllocError> {
    let place = place_of(1, all, all.len());
    write!(text, "{}:{}: ", place.line, place.column)
}

/// A source, and the answer that is expected of it.
#[derive(Drop)]
struct Case {
    source: Vec<u8>,
    expected: String,
}

/// The source of a row. `@` stands before the token at which it is refused.
fn add_source(text: &str, case: &mut Case) -> Result<(), AllocError> {
    match text.split_once('@') {
        None => expand(&mut case.source, text),
        Some((before, behind)) => {
            expand(&mut case.source, before)?;
            print_end(&mut case.expected, case.source.as_slice())?;
            expand(&mut case.source, behind)
        }
    }
}

/// A text of the frame that stands before or behind a row.
fn add_beside(front: &str, back: &str, all: &mut Vec<u8>) -> Result<(), AllocError> {
    add(all, front)?;
    if !front.is_empty() || !back.is_empty() {
        all.push(b' ')?;
    }
    add(all, back)
}

fn case_of(alloc: Global, frame: &Frame, text: &str, wanted: &str) -> Result<Case, AllocError> {
    let mut case = Case {
        source: Vec::new(alloc),
        expected: String::new(alloc),
    };
    add_beside(frame.front.as_str(), "", &mut case.source)?;
    add_source(text, &mut case)?;
    add_beside("", frame.back.as_str(), &mut case.source)?;
    case.expected.push_str(wanted)?;
    Ok(case)
}

/// The answer of a row, where it is another than the row expects.
pub(crate) fn other_answer(
    alloc: Global,
    frame: &Frame,
    text: &str,
    wanted: &str,
) -> Result<Option<String>, AllocError> {
    let case = case_of(alloc, frame, text, wanted)?;
    let found = answer(alloc, frame.view, case.source.as_slice())?;
    if found.as_str().trim_end() == case.expected.as_str() {
        return Ok(None);
    }
    Ok(Some(found))
}
