//! The rows of a table, section by section.
use crate::answers::{FILE, Kind, answer, at};
use crate::texts::text_of;
use floyd_termread::Scope;
use floyd_text::place_of;
use std::alloc::{AllocError, Global};

/// What a row wants, with the place that its text marks, and what is found.
fn answers_of(
    alloc: Global,
    scope: &Scope<'_>,
    kind: &Kind,
    row: &str,
) -> Result<(String, String), AllocError> {
    let (wanted, text) = row.split_once('#').unwrap_or(("", row));
    let (bytes, place) = text_of(alloc, "", text, "")?;
    let found = answer(
        alloc,
        scope,
        kind,
        bytes.as_slice(),
        wanted.strip_prefix("as "),
    )?;
    let mut wanted = wanted.to_string(alloc)?;
    if let Some(place) = place {
        let place = place_of(FILE, bytes.as_slice(), bytes.len().min(place));
        wanted.push_str(at(alloc, place)?.as_str())?;
    }
    Ok((wanted, found))
}

/// 1 where the row agrees; else 0, and it goes to the report with what was found.
fn count(
    alloc: Global,
    scope: &Scope<'_>,
    kind: &Kind,
    row: &str,
    report: &mut String,
) -> Result<u64, AllocError> {
    let (wanted, found) = answers_of(alloc, scope, kind, row)?;
    if wanted.as_str() == found.as_str() {
        return Ok(1);
    }
    report.push_str(format!(in alloc; "{row}, but {found}\n")?.as_str())?;
    Ok(0)
}

/// How many rows of the table agree. The others go to the report.
pub(crate) fn agree(
    alloc: Global,
    scope: &Scope<'_>,
    table: &str,
    report: &mut String,
) -> Result<u64, AllocError> {
    let mut kind = Kind::Unknown;
    let mut agreed: u64 = 0;
    'rows: for line in table.lines() {
        if let Some(heading) = line.strip_prefix("= ") {
            kind = Kind::of(alloc, heading)?;
        } else if !line.starts_with("-- ") {
            agreed = agreed.saturating_add(count(alloc, scope, &kind, line, report)?);
        }
    }
    Ok(agreed)
}
