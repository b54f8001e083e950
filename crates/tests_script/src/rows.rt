//! The rows of a table, section by section.
use crate::answers::{FILE, Question, answer, at};
use crate::texts::text_of;
use floyd_text::place_of;
use std::alloc::{AllocError, Global};

/// What is asked of each text of a section, and what stands before and behind each.
#[derive(Clone, Copy)]
struct Section<'a> {
    question: Question,
    front: &'a str,
    back: &'a str,
}

/// The section that a heading begins: a question, and behind `: ` what stands round each text, with `@` for that.
fn section_of(heading: &str) -> Section<'_> {
    let (question, round) = heading.split_once(": ").unwrap_or((heading, "@"));
    let (front, back) = round.split_once('@').unwrap_or((round, ""));
    Section {
        question: Question::of(question),
        front,
        back,
    }
}

/// What a row wants, with the place that its text marks, and what is found.
fn answers_of(
    alloc: Global,
    section: Section<'_>,
    row: &str,
) -> Result<(String, String), AllocError> {
    let (wanted, text) = row.split_once('#').unwrap_or(("", row));
    let (bytes, place) = text_of(alloc, section.front, text, section.back)?;
    let mut wanted = wanted.to_string(alloc)?;
    if let Some(place) = place {
        let place = place_of(FILE, bytes.as_slice(), bytes.len().min(place));
        wanted.push_str(at(alloc, place)?.as_str())?;
    }
    let found = answer(alloc, section.question, bytes.as_slice())?;
    Ok((wanted, found))
}

/// 1 where the row agrees; else 0, and it goes to the report with what was found.
fn count(
    alloc: Global,
    section: Section<'_>,
    row: &str,
    report: &mut String,
) -> Result<u64, AllocError> {
    let (wanted, found) = answers_of(alloc, section, row)?;
    if wanted.as_str() == found.as_str() {
        return Ok(1);
    }
    report.push_str(format!(in alloc; "{row}, but {found}\n")?.as_str())?;
    Ok(0)
}

/// How many rows of the table agree. The others go to the report.
pub(crate) fn agree(alloc: Global, table: &str, report: &mut String) -> Result<u64, AllocError> {
    let mut section = section_of("");
    let mut agreed: u64 = 0;
    'rows: for line in table.lines() {
        if let Some(heading) = line.strip_prefix("= ") {
            section = section_of(heading);
        } else if !line.starts_with("-- ") {
            agreed = agreed.saturating_add(count(alloc, section, line, report)?);
        }
    }
    Ok(agreed)
}
