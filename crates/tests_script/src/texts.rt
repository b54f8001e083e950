//! The texts of rows.
use std::alloc::{AllocError, Global};

/// What is read of `$` and the two digits of a byte.
#[derive(Clone, Copy)]
enum Escape {
    Outside,
    Begun,
    Half(u8),
}

fn digit_of(b: u8) -> u8 {
    match b {
        b'0'..=b'9' => b - b'0',
        b'a'..=b'f' => b - b'a' + 10,
        _ => 0,
    }
}

/// Adds a byte of a row, and answers what is read of a byte that is written by its digits.
fn add_byte(all: &mut Vec<u8>, escape: Escape, b: u8) -> Result<Escape, AllocError> {
    match escape {
        Escape::Outside if b == b'$' => Ok(Escape::Begun),
        Escape::Outside => {
            all.push(b)?;
            Ok(Escape::Outside)
        }
        Escape::Begun => Ok(Escape::Half(digit_of(b))),
        Escape::Half(high) => {
            all.push((high << 4) | digit_of(b))?;
            Ok(Escape::Outside)
        }
    }
}

fn add(all: &mut Vec<u8>, text: &str) -> Result<(), AllocError> {
    let mut escape = Escape::Outside;
    'each: for b in text.as_bytes() {
        escape = add_byte(all, escape, *b)?;
    }
    Ok(())
}

fn add_times(all: &mut Vec<u8>, times: u32, text: &str) -> Result<(), AllocError> {
    'each: for _ in 0..times {
        add(all, text)?;
    }
    Ok(())
}

/// Adds what stands between backquotes: a number, and a text that stands so many times.
fn add_repeated(all: &mut Vec<u8>, piece: &str) -> Result<(), AllocError> {
    match piece.split_once(' ') {
        Some((times, text)) => add_times(all, times.parse::<u32>().unwrap_or(0), text),
        None => Ok(()),
    }
}

/// Adds a part of a row's text, with its repetitions.
pub(crate) fn expand(all: &mut Vec<u8>, part: &str) -> Result<(), AllocError> {
    let mut repeats = false;
    'pieces: for piece in part.split('`') {
        if repeats {
            add_repeated(all, piece)?;
        } else {
            add(all, piece)?;
        }
        repeats = !repeats;
    }
    Ok(())
}

/// A row's text between two others. The second is where `@` stands in it, which is no part of it.
pub(crate) fn text_of(
    alloc: Global,
    front: &str,
    text: &str,
    back: &str,
) -> Result<(Vec<u8>, Option<usize>), AllocError> {
    let mut all = Vec::new(alloc);
    expand(&mut all, front)?;
    let mut place = None;
    match text.split_once('@') {
        None => expand(&mut all, text)?,
        Some((before, behind)) => {
            expand(&mut all, before)?;
            place = Some(all.len());
            expand(&mut all, behind)?;
        }
    }
    expand(&mut all, back)?;
    Ok((all, place))
}
