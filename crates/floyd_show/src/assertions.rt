ghost use Rattle.std.specs.Prelude.{◌≡◌, ◌+◌, ◌++◌, OnOk, codes};
ghost use Rattle.std.specs.Fmt.{decimal};
ghost use Rattle.floyd_show.specs.Goals.{assertion_lines, binder_line, binder_lines, formula_line, hypothesis_line, hypothesis_lines, local_line, local_lines, part_line, part_lines, prop_lines};

use crate::parts::put_part;
use floyd_assert_trees::{Assertion, Binder, Local, Sep};
use floyd_show_terms::{put_formula, put_sort, put_term};
use floyd_text::Bytes;
use floyd_tree::Formula;
use std::alloc::{AllocError, Global};

/// Puts the number at the end.
pub(crate) fn put_number(alloc: Global, out: &mut Bytes, n: u64) -> Result<(), AllocError>
    ensures { OnOk result (out.new ≡ out.old ++ decimal n) }
{
    let text = format!(in alloc; "{n}")?;
    out.extend(text.as_bytes())
}

/// Puts the number of what stands at this place, from 1, behind the word and before a colon.
fn put_place(alloc: Global, out: &mut Bytes, word: &str, place: usize) -> Result<(), AllocError>
    ensures { OnOk result (out.new ≡ out.old ++ word.now ++ decimal (place + 1) ++ codes ": ") }
{
    let number = place as u128 + 1;
    let text = format!(in alloc; "{number}")?;
    out.extend(word.as_bytes())?;
    out.extend(text.as_bytes())?;
    out.extend(": ".as_bytes())
}

/// Puts a line for the variable at the end: the word, the name and the sort.
fn put_binder(out: &mut Bytes, word: &str, binder: &Binder) -> Result<(), AllocError>
    ensures { OnOk result (out.new ≡ out.old ++ binder_line word.now binder.now) }
{
    out.extend(word.as_bytes())?;
    out.extend(binder.name.as_slice())?;
    out.extend(": ".as_bytes())?;
    put_sort(out, &binder.sort)?;
    out.push(b'\n')
}

/// Puts a line for each variable at the end.
pub(crate) fn put_binders(out: &mut Bytes, word: &str, binders: &[Binder]) -> Result<(), AllocError>
    ensures { OnOk result (out.new ≡ out.old ++ binder_lines word.now binders.now) }
{
    'binders: for binder in binders {
        put_binder(out, word, binder)?;
    }
    Ok(())
}

/// Puts a line for the hypothesis at this place at the end.
fn put_hypothesis(
    alloc: Global,
    out: &mut Bytes,
    place: usize,
    formula: &Formula,
) -> Result<(), AllocError>
    ensures { OnOk result (out.new ≡ out.old ++ hypothesis_line (place + 1) formula.now) }
{
    put_place(alloc, out, "H", place)?;
    put_formula(alloc, out, formula)?;
    out.push(b'\n')
}

/// Puts a line for each hypothesis at the end, with its number from 1.
pub(crate) fn put_hypotheses(
    alloc: Global,
    out: &mut Bytes,
    formulas: &[Formula],
) -> Result<(), AllocError>
    ensures { OnOk result (out.new ≡ out.old ++ hypothesis_lines 1 formulas.now) }
{
    'formulas: for place in 0..formulas.len() {
        put_hypothesis(alloc, out, place, &formulas[place])?;
    }
    Ok(())
}

/// Puts a line at the end: the word and the formula.
pub(crate) fn put_formula_line(
    alloc: Global,
    out: &mut Bytes,
    word: &str,
    formula: &Formula,
) -> Result<(), AllocError>
    ensures { OnOk result (out.new ≡ out.old ++ formula_line word.now formula.now) }
{
    out.extend(word.as_bytes())?;
    put_formula(alloc, out, formula)?;
    out.push(b'\n')
}

/// Puts a line for each formula of PROP at the end.
fn put_props(alloc: Global, out: &mut Bytes, formulas: &[Formula]) -> Result<(), AllocError>
    ensures { OnOk result (out.new ≡ out.old ++ prop_lines formulas.now) }
{
    'formulas: for formula in formulas {
        put_formula_line(alloc, out, "PROP ", formula)?;
    }
    Ok(())
}

/// Puts a line for the temporary at the end.
fn put_local(alloc: Global, out: &mut Bytes, local: &Local) -> Result<(), AllocError>
    ensures { OnOk result (out.new ≡ out.old ++ local_line local.now) }
{
    out.extend("LOCAL temp ".as_bytes())?;
    out.extend(local.name.as_slice())?;
    out.extend(" = ".as_bytes())?;
    put_term(alloc, out, &local.term)?;
    out.push(b'\n')
}

/// Puts a line for each temporary at the end.
fn put_locals(alloc: Global, out: &mut Bytes, locals: &[Local]) -> Result<(), AllocError>
    ensures { OnOk result (out.new ≡ out.old ++ local_lines locals.now) }
{
    'locals: for local in locals {
        put_local(alloc, out, local)?;
    }
    Ok(())
}

/// Puts a line for the part at this place at the end.
fn put_part_line(alloc: Global, out: &mut Bytes, place: usize, part: &Sep) -> Result<(), AllocError>
    ensures { OnOk result (out.new ≡ out.old ++ part_line (place + 1) part.now) }
{
    put_place(alloc, out, "SEP", place)?;
    put_part(alloc, out, part)?;
    out.push(b'\n')
}

/// Puts a line for each part at the end, with its number from 1.
fn put_parts(alloc: Global, out: &mut Bytes, parts: &[Sep]) -> Result<(), AllocError>
    ensures { OnOk result (out.new ≡ out.old ++ part_lines 1 parts.now) }
{
    'parts: for place in 0..parts.len() {
        put_part_line(alloc, out, place, &parts[place])?;
    }
    Ok(())
}

/// Puts the lines of the assertion at the end.
pub(crate) fn put_assertion(
    alloc: Global,
    out: &mut Bytes,
    assertion: &Assertion,
) -> Result<(), AllocError>
    ensures { OnOk result (out.new ≡ out.old ++ assertion_lines assertion.now) }
{
    put_binders(out, "EX ", assertion.existentials.as_slice())?;
    put_props(alloc, out, assertion.props.as_slice())?;
    put_locals(alloc, out, assertion.locals.as_slice())?;
    put_parts(alloc, out, assertion.parts.as_slice())
}
