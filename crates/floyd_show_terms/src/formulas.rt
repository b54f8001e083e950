ghost use Rattle.std.specs.Prelude.{◌≡◌, ◌++◌, OnOk, codes, map};
ghost use Rattle.floyd_tree.specs.Formulas.{formulas};
ghost use Rattle.floyd_tree.specs.Plain.{plains};
ghost use Rattle.floyd_show_terms.specs.Formulas.{compatible_text, formula_text, hasty_text, inner, placed_text, written_formula, written_formulas};
ghost use Rattle.floyd_show_terms.specs.Terms.{following, separated, term_texts};
ghost use Rattle.floyd_show_terms.specs.Words.{sort_text};

use crate::paths::put_steps;
use crate::terms::{put_kids, texts_of};
use crate::types::put_type;
use crate::words::put_sort;
use floyd_text::{Bytes, Name};
use floyd_tree::{Formula, Shape, Sort, Term, formula_head, formula_kids, formula_terms};
use floyd_tree_sorts::{FormulaHead, StepShape};
use std::alloc::{AllocError, Global};

/// Puts texts at the end, each behind a comma.
fn put_texts_behind(out: &mut Bytes, texts: &[Bytes]) -> Result<(), AllocError>
    ensures { OnOk result (out.new ≡ out.old ++ following (codes ", ") texts.now) }
{
    'texts: for text in texts {
        out.extend(", ".as_bytes())?;
        out.extend(text.as_slice())?;
    }
    Ok(())
}

/// Puts texts at the end, with a comma between each two.
fn put_texts(out: &mut Bytes, texts: &[Bytes]) -> Result<(), AllocError>
    ensures { OnOk result (out.new ≡ out.old ++ separated (codes ", ") texts.now) }
{
    match texts {
        [] => Ok(()),
        [first, rest @ ..] => {
            out.extend(first.as_slice())?;
            put_texts_behind(out, rest)
        }
    }
}

/// Puts the word and the terms behind it at the end.
fn put_said(alloc: Global, out: &mut Bytes, word: &str, terms: &[Term]) -> Result<(), AllocError>
    ensures { OnOk result (out.new ≡ out.old ++ (word.now ++ separated (codes ", ") (term_texts (plains terms.now)) ++ codes ")")) }
{
    out.extend(word.as_bytes())?;
    put_kids(alloc, out, ", ", false, terms)?;
    out.extend(")".as_bytes())
}

/// Puts the name of a specification and the term at the end.
fn put_func_ptr(
    alloc: Global,
    out: &mut Bytes,
    name: &Name,
    terms: &[Term],
) -> Result<(), AllocError>
    ensures { OnOk result (out.new ≡ out.old ++ (codes "func_ptr(" ++ name.now ++ codes ", " ++ separated (codes ", ") (term_texts (plains terms.now)) ++ codes ")")) }
{
    out.extend("func_ptr(".as_bytes())?;
    out.extend(name.as_slice())?;
    put_said(alloc, out, ", ", terms)
}

/// Puts the type and the value at the end: the terms are the sizes and the value.
fn put_hasty(
    alloc: Global,
    out: &mut Bytes,
    shape: &Shape,
    terms: &[Term],
) -> Result<(), AllocError>
    ensures { OnOk result (out.new ≡ out.old ++ hasty_text shape.now (term_texts (plains terms.now))) }
{
    let texts = texts_of(alloc, terms)?;
    out.extend("hasty(".as_bytes())?;
    let left = put_type(out, shape, texts.as_slice())?;
    out.extend(", ".as_bytes())?;
    put_texts(out, left)?;
    out.extend(")".as_bytes())
}

/// Puts the path and the value at the end, with these texts for the subscripts and the value.
fn put_placed(out: &mut Bytes, path: &[StepShape], texts: &[Bytes]) -> Result<(), AllocError>
    ensures { OnOk result (out.new ≡ out.old ++ placed_text path.now texts.now) }
{
    out.extend(", [".as_bytes())?;
    let left = put_steps(out, path, texts)?;
    out.extend("], ".as_bytes())?;
    put_texts(out, left)?;
    out.extend(")".as_bytes())
}

/// Puts the type, the path and the value at the end: the terms are the sizes, the subscripts and the value.
fn put_compatible(
    alloc: Global,
    out: &mut Bytes,
    shape: &Shape,
    path: &[StepShape],
    terms: &[Term],
) -> Result<(), AllocError>
    ensures { OnOk result (out.new ≡ out.old ++ compatible_text shape.now path.now (term_texts (plains terms.now))) }
{
    let texts = texts_of(alloc, terms)?;
    out.extend("compatible(".as_bytes())?;
    let left = put_type(out, shape, texts.as_slice())?;
    put_placed(out, path, left)
}

/// Puts the quantifier with its variable at the end.
fn put_quantifier(out: &mut Bytes, word: &str, name: &Name, sort: &Sort) -> Result<(), AllocError>
    ensures { OnOk result (out.new ≡ out.old ++ (word.now ++ name.now ++ codes ": " ++ sort_text sort.now ++ codes " . ")) }
{
    out.extend(word.as_bytes())?;
    out.extend(name.as_slice())?;
    out.extend(": ".as_bytes())?;
    put_sort(out, sort)?;
    out.extend(" . ".as_bytes())
}

fn is_joined(formula: &Formula) -> bool
    ensures { result ≡ (written_formula formula.now).joined }
{
    match formula_head(formula) {
        FormulaHead::Implies
        | FormulaHead::Or
        | FormulaHead::And
        | FormulaHead::Forall(_, _)
        | FormulaHead::Exists(_, _) => true,
        _ => false,
    }
}

/// Puts the formula at the end.
#[cycle(formulas)]
#[tactic(auto, using(floyd_tree::proofs::FormulaLemmas::formulas_below))]
pub fn put_formula(alloc: Global, out: &mut Bytes, formula: &Formula) -> Result<(), AllocError>
    ensures { OnOk result (out.new ≡ out.old ++ formula_text formula.now) }
{
    let kids = formula_kids(formula).as_slice();
    let terms = formula_terms(formula).as_slice();
    match formula_head(formula) {
        FormulaHead::True => out.extend("True".as_bytes()),
        FormulaHead::False => out.extend("False".as_bytes()),
        FormulaHead::Implies => put_inners(alloc, out, " -> ", kids),
        FormulaHead::Or => put_inners(alloc, out, " or ", kids),
        FormulaHead::And => put_inners(alloc, out, " and ", kids),
        FormulaHead::Forall(name, sort) => {
            put_quantifier(out, "forall ", name, sort)?;
            put_inners(alloc, out, "", kids)
        }
        FormulaHead::Exists(name, sort) => {
            put_quantifier(out, "exists ", name, sort)?;
            put_inners(alloc, out, "", kids)
        }
        FormulaHead::Equal => put_kids(alloc, out, " = ", false, terms),
        FormulaHead::AtMost => put_kids(alloc, out, " <= ", false, terms),
        FormulaHead::IsPtr => put_said(alloc, out, "isptr(", terms),
        FormulaHead::Defined => put_said(alloc, out, "defined(", terms),
        FormulaHead::Hasty(shape) => put_hasty(alloc, out, shape.get(), terms),
        FormulaHead::Compatible(shape, path) => {
            put_compatible(alloc, out, shape.get(), path.get().as_slice(), terms)
        }
        FormulaHead::FuncPtr(name) => put_func_ptr(alloc, out, name, terms),
    }
}

/// Puts a formula inside another one at the end.
#[cycle(formulas)]
fn put_inner(alloc: Global, out: &mut Bytes, formula: &Formula) -> Result<(), AllocError>
    ensures { OnOk result (out.new ≡ out.old ++ inner (written_formula formula.now)) }
{
    if is_joined(formula) {
        out.extend("(".as_bytes())?;
        put_formula(alloc, out, formula)?;
        out.extend(")".as_bytes())
    } else {
        put_formula(alloc, out, formula)
    }
}

/// Puts formulas inside another one at the end, with the mark between each two.
#[cycle(formulas)]
fn put_inners(
    alloc: Global,
    out: &mut Bytes,
    mark: &str,
    kids: &[Formula],
) -> Result<(), AllocError>
    ensures { OnOk result (out.new ≡ out.old ++ separated mark.now (map inner (written_formulas (formulas kids.now)))) }
{
    match kids {
        [] => Ok(()),
        [first, rest @ ..] => {
            put_inner(alloc, out, first)?;
            put_inners_behind(alloc, out, mark, rest)
        }
    }
}

/// Puts formulas inside another one at the end, each behind the mark.
#[cycle(formulas)]
#[tactic(auto, using(floyd_tree::proofs::FormulaLemmas::formula_height_at))]
fn put_inners_behind(
    alloc: Global,
    out: &mut Bytes,
    mark: &str,
    kids: &[Formula],
) -> Result<(), AllocError>
    ensures { OnOk result (out.new ≡ out.old ++ following mark.now (map inner (written_formulas (formulas kids.now)))) }
{
    'kids: for kid in kids {
        out.extend(mark.as_bytes())?;
        put_inner(alloc, out, kid)?;
    }
    Ok(())
}
