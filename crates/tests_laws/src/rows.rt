ghost use Rattle.std.specs.Prelude.{◌≡◌, ◌<◌};

use crate::arguments::arguments;
use crate::printing::{print_law, print_refusal};
use floyd_listlaw::law_instance;
use floyd_text::{Name, RuleStop, Steps};
use std::alloc::{AllocError, Global};
use std::sync::ledger::{Blank, Ledger};

/// What the law of the first word says of the terms of the others.
fn answer<L: Ledger>(
    alloc: Global,
    words: &[&str],
    steps: &mut Steps<L>,
) -> Result<String, AllocError> {
    let mut text = String::new(alloc);
    let [law, rest @ ..] = words else {
        return Ok(text);
    };
    let Ok(terms) = arguments(alloc, rest, steps) else {
        return Ok(text);
    };
    let name = Name::from_slice(alloc, law.as_bytes())?;
    match &law_instance(alloc, &name, &terms, steps) {
        Ok(law) => print_law(&mut text, law)?,
        Err(RuleStop::No(no)) => print_refusal(&mut text, no)?,
        Err(RuleStop::Memory) => {}
    }
    Ok(text)
}

/// Whether a row, `LAW TERM .. | ANSWER`, answers as it says.
pub fn agrees<L: Ledger>(alloc: Global, row: &[u8], blank: Blank) -> Result<bool, AllocError>
    requires name { blank.name ≡ L.name }
    requires parts { blank.parts ≡ L.parts }
    requires some { 0 < blank.parts }
{
    let text = str::from_utf8(row).unwrap_or("");
    let Some((question, wanted)) = text.split_once("|") else {
        return Ok(false);
    };
    let words = question.split_whitespace().collect::<Vec<&str>>(alloc)?;
    let mut steps = Steps::<L>::new(blank);
    let given = answer(alloc, words.as_slice(), &mut steps)?;
    Ok(given.as_str() == wanted.trim())
}
