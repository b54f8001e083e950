//! Terms, formulas, types and paths.
ghost use Rattle.std.specs.Prelude.{◌≡◌, ◌≤◌, ◌<◌, ◌+◌, ◌^◌, IfOk, OnOk, length};
ghost use Rattle.floyd_specread_skims.specs.Skims as specs;
ghost use Rattle.floyd_termread_phrases.specs.Reads.{Answers};

use floyd_lex::Punctuator;
use floyd_termread_grammar::{Passage, read_written};
use floyd_termread_marks::{leads_type, take_mark};
use floyd_termread_phrases::{Spot, Text};
use floyd_termread_tables::Want;
use floyd_text::Halt;
use std::alloc::Global;

/// The number of the token behind what is wanted. Else the refusal of the grammar, with 302 or 501.
pub fn skim_phrase(alloc: Global, text: Text<'_>, spot: Spot, want: Want) -> Result<u32, Halt>
    requires at { spot.at ≤ length text.tokens.now.items }
    requires count { length text.tokens.now.items < 2 ^ 32 }
    ensures exact { Answers (λ n. (tt, n)) (specs.phrase text.entry.bytes.now text.entry.tokens.now spot.depth want spot.at) result }
    ensures from { IfOk result (λ n. spot.at ≤ n) }
    ensures within { IfOk result (λ n. n ≤ length text.entry.tokens.now.items) }
{
    let Passage { tree, end } = read_written(
        alloc,
        text.bytes,
        text.tokens,
        spot.at,
        spot.depth,
        want,
    )?;
    drop(tree);
    match end {
        Ok(next) => Ok(next),
        Err(refusal) => Err(Halt::Refused(refusal)),
    }
}

/// The same behind a comma.
pub(crate) fn skim_behind(
    alloc: Global,
    text: Text<'_>,
    spot: Spot,
    want: Want,
) -> Result<u32, Halt>
    requires at { spot.at ≤ length text.tokens.now.items }
    requires count { length text.tokens.now.items < 2 ^ 32 }
    ensures exact { Answers (λ n. (tt, n)) (specs.behind text.entry.bytes.now text.entry.tokens.now spot.depth want spot.at) result }
    ensures from { IfOk result (λ n. spot.at ≤ n) }
    ensures within { IfOk result (λ n. n ≤ length text.entry.tokens.now.items) }
{
    let depth = spot.depth;
    let (_comma, first) = take_mark(text, spot, Punctuator::Comma)?;
    skim_phrase(alloc, text, Spot { at: first, depth }, want)
}

/// `[share ","]`
fn skim_share(alloc: Global, text: Text<'_>, spot: Spot) -> Result<u32, Halt>
    requires at { spot.at ≤ length text.tokens.now.items }
    requires count { length text.tokens.now.items < 2 ^ 32 }
    ensures exact { Answers (λ n. (tt, n)) (specs.share text.entry.bytes.now text.entry.tokens.now spot.depth spot.at) result }
    ensures from { IfOk result (λ n. spot.at ≤ n) }
    ensures within { IfOk result (λ n. n ≤ length text.entry.tokens.now.items) }
{
    if leads_type(text, spot.at) {
        return Ok(spot.at);
    }
    let depth = spot.depth;
    let first = skim_phrase(alloc, text, spot, Want::Term)?;
    let (_comma, behind) = take_mark(text, Spot { at: first, depth }, Punctuator::Comma)?;
    Ok(behind)
}

/// `[share ","] type`
pub(crate) fn skim_object(alloc: Global, text: Text<'_>, spot: Spot) -> Result<u32, Halt>
    requires at { spot.at ≤ length text.tokens.now.items }
    requires count { length text.tokens.now.items < 2 ^ 32 }
    ensures exact { Answers (λ n. (tt, n)) (specs.object text.entry.bytes.now text.entry.tokens.now spot.depth spot.at) result }
    ensures from { IfOk result (λ n. spot.at ≤ n) }
    ensures within { IfOk result (λ n. n ≤ length text.entry.tokens.now.items) }
{
    let depth = spot.depth;
    let first = skim_share(alloc, text, spot)?;
    skim_phrase(alloc, text, Spot { at: first, depth }, Want::Type)
}
