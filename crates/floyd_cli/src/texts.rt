ghost use Rattle.std.specs.Prelude.{◌≡◌, ◌++◌, List, ℕ, map, OnOk, IfOk};
ghost use Rattle.std.specs.Fmt.{decimal};
ghost use Rattle.floyd_text.specs.Commands.{command_word};
ghost use Rattle.floyd_cli.specs.Texts as spec;

use floyd_text::{Bytes, Name, Place, Refusal, Rule, Shown};
use std::alloc::{AllocError, Global};

/// Puts the number at the end in decimal.
fn put_number(alloc: Global, out: &mut Bytes, n: u64) -> Result<(), AllocError>
    ensures { OnOk result (out.new ≡ out.old ++ decimal n) }
{
    let text = format!(in alloc; "{n}")?;
    out.extend(text.as_bytes())
}

/// Puts the name of the file of this number at the end.
fn put_file(out: &mut Bytes, names: &[Name], file: u32) -> Result<(), AllocError>
    ensures { OnOk result (out.new ≡ out.old ++ spec.file_name names.now file) }
{
    match names.get(file as usize) {
        None => Ok(()),
        Some(name) => out.extend(name.as_slice()),
    }
}

/// Puts `FILE:LINE:COLUMN` at the end.
fn put_place(alloc: Global, out: &mut Bytes, names: &[Name], place: Place) -> Result<(), AllocError>
    ensures { OnOk result (out.new ≡ out.old ++ spec.place_text (spec.file_name names.now place.file) place) }
{
    put_file(out, names, place.file)?;
    out.push(b':')?;
    put_number(alloc, out, u64::from(place.line))?;
    out.push(b':')?;
    put_number(alloc, out, u64::from(place.column))
}

/// Puts what is shown at the end.
fn put_shown(alloc: Global, out: &mut Bytes, shown: &Shown) -> Result<(), AllocError>
    ensures { OnOk result (out.new ≡ out.old ++ spec.shown_text shown.now) }
{
    match shown {
        Shown::Nothing => Ok(()),
        Shown::Count(n) => {
            out.extend(" count ".as_bytes())?;
            put_number(alloc, out, *n)
        }
        Shown::Name(name) => {
            out.extend(" name ".as_bytes())?;
            out.extend(name.as_slice())
        }
        Shown::Part(k) => {
            out.extend(" part ".as_bytes())?;
            put_number(alloc, out, u64::from(*k))
        }
        Shown::Hypothesis(k) => {
            out.extend(" hypothesis ".as_bytes())?;
            put_number(alloc, out, u64::from(*k))
        }
    }
}

/// Puts ` in COMMAND` at the end, where a command was tried.
fn put_rule(out: &mut Bytes, rule: Rule) -> Result<(), AllocError>
    ensures { OnOk result (out.new ≡ out.old ++ spec.rule_text (command_word rule)) }
{
    match rule.word() {
        None => Ok(()),
        Some(word) => {
            out.extend(" in ".as_bytes())?;
            out.extend(word.as_bytes())
        }
    }
}

/// Puts ` at goal G` at the end, where the goal has a number.
fn put_goal(alloc: Global, out: &mut Bytes, goal: u32) -> Result<(), AllocError>
    ensures { OnOk result (out.new ≡ out.old ++ spec.goal_text goal) }
{
    if goal == 0 {
        return Ok(());
    }
    out.extend(" at goal ".as_bytes())?;
    put_number(alloc, out, u64::from(goal))
}

/// Puts `FILE:LINE:COLUMN: CODE NAME` at the end.
fn put_head(
    alloc: Global,
    out: &mut Bytes,
    names: &[Name],
    refusal: &Refusal,
) -> Result<(), AllocError>
    ensures { OnOk result (out.new ≡ out.old ++ spec.head_text (spec.file_name names.now refusal.now.place.file) refusal.now) }
{
    put_place(alloc, out, names, refusal.place)?;
    out.extend(": ".as_bytes())?;
    put_number(alloc, out, u64::from(refusal.code.number()))?;
    out.push(b' ')?;
    out.extend(refusal.code.name().as_bytes())
}

/// The line of a refusal. The names are those of the project's files by their numbers.
pub fn refusal_line(alloc: Global, names: &[Name], refusal: &Refusal) -> Result<Bytes, AllocError>
    ensures { IfOk result (λ text. text ≡ spec.refusal_text names.now refusal.now) }
{
    let mut out = Bytes::new(alloc);
    put_head(alloc, &mut out, names, refusal)?;
    put_rule(&mut out, refusal.rule)?;
    put_goal(alloc, &mut out, refusal.goal)?;
    put_shown(alloc, &mut out, &refusal.shown)?;
    out.push(b'\n')?;
    Ok(out)
}

/// The lines of acceptance, for the functions that were proved, in their order.
pub fn accepted_lines(alloc: Global, proved: &[Name]) -> Result<Bytes, AllocError>
    ensures { IfOk result (λ text. text ≡ spec.accepted_text proved.now) }
{
    let mut out = Bytes::new(alloc);
    'each: for name in proved {
        out.extend("proved ".as_bytes())?;
        out.extend(name.as_slice())?;
        out.push(b'\n')?;
    }
    out.extend("accepted".as_bytes())?;
    out.push(b'\n')?;
    Ok(out)
}

/// The line for a command line that is none, with the number of its first wrong word.
pub fn usage_line(alloc: Global, word: u64) -> Result<Bytes, AllocError>
    ensures { IfOk result (λ text. text ≡ spec.usage_text word) }
{
    let mut out = Bytes::new(alloc);
    out.extend("usage: word ".as_bytes())?;
    put_number(alloc, &mut out, word)?;
    out.push(b'\n')?;
    Ok(out)
}
