ghost use Rattle.std.specs.Prelude.{◌≡◌, ◌++◌, OnOk, IfOk, is_some, true, codes};
ghost use Rattle.std.specs.Fmt.{decimal, signed_decimal};
ghost use Rattle.floyd_tree.specs.Plain.{plains};
ghost use Rattle.floyd_tree_sorts.specs.declared.heads.Head.TheVariants as heads;
ghost use Rattle.floyd_tree_sorts.specs.Prints.{width_number};
ghost use Rattle.floyd_show_terms.specs.Terms.{all_written, following, frame, framed, kid_text, kid_texts, separated, term_text, term_texts, written};
ghost use Rattle.floyd_show_terms.specs.TermsClauses.{bracketed, is_cell as is_cell_lem, is_nil as is_nil_lem, item_mark as item_mark_lem, items_of};
ghost use Rattle.floyd_show_terms.specs.Types.{type_text};

use crate::types::put_type;
use crate::words::{Style, operator_text, style_of};
use floyd_text::{Bytes, Name};
use floyd_tree::{Head, Operator, Shape, Term, head, kids};
use floyd_tree_sorts::Width;
use std::alloc::{AllocError, Global};

/// Puts the number at the end.
fn put_number(alloc: Global, out: &mut Bytes, z: i128) -> Result<(), AllocError>
    ensures { OnOk result (out.new ≡ out.old ++ signed_decimal z) }
{
    let text = format!(in alloc; "{z}")?;
    out.extend(text.as_bytes())
}

/// Puts the name at the end, behind the word and in parentheses.
fn put_named(out: &mut Bytes, word: &str, name: &Name) -> Result<(), AllocError>
    ensures { OnOk result (out.new ≡ out.old ++ word.now ++ name.now ++ codes ")") }
{
    out.extend(word.as_bytes())?;
    out.extend(name.as_slice())?;
    out.extend(")".as_bytes())
}

/// Puts the word, the width and a comma at the end.
fn put_width(alloc: Global, out: &mut Bytes, word: &str, width: Width) -> Result<(), AllocError>
    ensures { OnOk result (out.new ≡ out.old ++ word.now ++ decimal (width_number width) ++ codes ", ") }
{
    out.extend(word.as_bytes())?;
    let number = width.number();
    let text = format!(in alloc; "{number}")?;
    out.extend(text.as_bytes())?;
    out.extend(", ".as_bytes())
}

/// Puts the operator at the end, where it stands before its arguments.
fn put_operator(out: &mut Bytes, operator: Operator) -> Result<(), AllocError>
    ensures { OnOk result (out.new ≡ out.old ++ (frame (heads.Operator operator)).before) }
{
    match style_of(operator) {
        Style::Alone => out.extend(operator_text(operator).as_bytes()),
        Style::Applied => {
            out.extend(operator_text(operator).as_bytes())?;
            out.extend("(".as_bytes())
        }
        Style::Between => Ok(()),
    }
}

/// Puts what stands before the kids of the head.
fn put_before(alloc: Global, out: &mut Bytes, head: &Head) -> Result<(), AllocError>
    ensures { OnOk result (out.new ≡ out.old ++ (frame head.now).before) }
{
    match head {
        Head::Literal(z) => put_number(alloc, out, *z),
        Head::Variable(name, _) => out.extend(name.as_slice()),
        Head::Gv(name) => put_named(out, "gv(", name),
        Head::Lv(name) => put_named(out, "lv(", name),
        Head::Nil(_) => out.extend("nil".as_bytes()),
        Head::Leaf(_) => out.extend("Leaf".as_bytes()),
        Head::Signed(width) => put_width(alloc, out, "signed(", *width),
        Head::Unsigned(width) => put_width(alloc, out, "unsigned(", *width),
        Head::Default(_, _) => out.extend("default(".as_bytes()),
        Head::Fun(name, _, _) => {
            out.extend(name.as_slice())?;
            out.extend("(".as_bytes())
        }
        Head::Operator(operator) => put_operator(out, *operator),
    }
}

/// What stands between the kids of the operator.
fn operator_mark(operator: Operator) -> &'static str
    ensures { result.now ≡ (frame (heads.Operator operator)).mark }
{
    match style_of(operator) {
        Style::Alone => "",
        Style::Applied => ", ",
        Style::Between => operator_text(operator),
    }
}

/// What stands between the kids of the head.
fn mark(head: &Head) -> &'static str
    ensures { result.now ≡ (frame head.now).mark }
{
    match head {
        Head::Signed(_) | Head::Unsigned(_) | Head::Default(_, _) | Head::Fun(_, _, _) => ", ",
        Head::Operator(operator) => operator_mark(*operator),
        _ => "",
    }
}

/// What stands behind the kids of the operator.
fn operator_end(operator: Operator) -> &'static str
    ensures { result.now ≡ (frame (heads.Operator operator)).behind }
{
    match style_of(operator) {
        Style::Applied => ")",
        _ => "",
    }
}

/// What stands behind the kids of the head.
fn end(head: &Head) -> &'static str
    ensures { result.now ≡ (frame head.now).behind }
{
    match head {
        Head::Signed(_) | Head::Unsigned(_) | Head::Default(_, _) | Head::Fun(_, _, _) => ")",
        Head::Operator(operator) => operator_end(*operator),
        _ => "",
    }
}

/// Whether the head stands between its kids.
fn stands_between(head: &Head) -> bool
    ensures { result ≡ (frame head.now).between }
{
    match head {
        Head::Operator(operator) => match style_of(*operator) {
            Style::Between => true,
            _ => false,
        },
        _ => false,
    }
}

/// Whether an item stands here before a list.
fn is_cell(head: &Head) -> bool
    ensures { result ≡ is_cell_lem head.now }
{
    match head {
        Head::Operator(operator) => match *operator {
            Operator::Cons => true,
            _ => false,
        },
        _ => false,
    }
}

fn is_nil(head: &Head) -> bool
    ensures { result ≡ is_nil_lem head.now }
{
    match head {
        Head::Nil(_) => true,
        _ => false,
    }
}

/// Whether the term is a literal list or `nil`.
fn is_literal_list(term: &Term) -> bool
    ensures { result ≡ is_some (written term.now).items }
{
    let top = head(term);
    if is_cell(top) {
        match kids(term).as_slice() {
            [_, rest] => is_literal_list(rest),
            _ => false,
        }
    } else {
        is_nil(top)
    }
}

/// Whether the term is written with an operator between its kids.
fn is_infix(term: &Term) -> bool
    ensures { result ≡ (written term.now).between }
{
    stands_between(head(term)) && !is_literal_list(term)
}

/// Puts the default value of the type at the end, with these texts for the sizes of its arrays.
fn put_default(out: &mut Bytes, shape: &Shape, sizes: &[Bytes]) -> Result<(), AllocError>
    ensures { OnOk result (out.new ≡ out.old ++ (codes "default(" ++ type_text shape.now sizes.now ++ codes ")")) }
{
    out.extend("default(".as_bytes())?;
    put_type(out, shape, sizes)?;
    out.extend(")".as_bytes())
}

/// Puts the term at the end.
#[cycle(terms)]
#[tactic(auto, using(floyd_tree::proofs::Heights::heights_below))]
pub fn put_term(alloc: Global, out: &mut Bytes, term: &Term) -> Result<(), AllocError>
    ensures { OnOk result (out.new ≡ out.old ++ term_text term.now) }
{
    let kids = kids(term).as_slice();
    let top = head(term);
    match top {
        Head::Nil(_) => out.extend("nil".as_bytes()),
        Head::Default(shape, _) => {
            let sizes = texts_of(alloc, kids)?;
            put_default(out, shape.get(), sizes.as_slice())
        }
        _ => {
            if is_literal_list(term) {
                put_items(alloc, out, true, term)
            } else {
                put_framed(alloc, out, top, kids)
            }
        }
    }
}

/// What stands before an item of a literal list.
fn item_mark(opens: bool) -> &'static str
    ensures { result.now ≡ item_mark_lem opens }
{
    if opens { "[" } else { ", " }
}

/// Puts the items of a literal list at the end, each behind its mark, and the closing bracket. The first one may open the list.
#[cycle(terms)]
fn put_items(alloc: Global, out: &mut Bytes, opens: bool, list: &Term) -> Result<(), AllocError>
    requires { is_some (written list.now).items ≡ true }
    ensures { OnOk result (out.new ≡ out.old ++ bracketed opens (items_of list.now)) }
{
    match head(list) {
        Head::Nil(_) => out.extend("]".as_bytes()),
        _ => match kids(list).as_slice() {
            [first, rest] => {
                out.extend(item_mark(opens).as_bytes())?;
                put_term(alloc, out, first)?;
                put_items(alloc, out, false, rest)
            }
            _ => Ok(()),
        },
    }
}

/// Puts the head at the end with its kids in it.
#[cycle(terms)]
fn put_framed(alloc: Global, out: &mut Bytes, head: &Head, kids: &[Term]) -> Result<(), AllocError>
    ensures { OnOk result (out.new ≡ out.old ++ (framed (frame head.now) (all_written (plains kids.now))).text) }
{
    put_before(alloc, out, head)?;
    put_kids(alloc, out, mark(head), stands_between(head), kids)?;
    out.extend(end(head).as_bytes())
}

/// Puts a kid at the end: in parentheses where it and the term around it are infix terms.
#[cycle(terms)]
fn put_kid(alloc: Global, out: &mut Bytes, enclosed: bool, kid: &Term) -> Result<(), AllocError>
    ensures { OnOk result (out.new ≡ out.old ++ kid_text enclosed (written kid.now)) }
{
    if enclosed && is_infix(kid) {
        out.extend("(".as_bytes())?;
        put_term(alloc, out, kid)?;
        out.extend(")".as_bytes())
    } else {
        put_term(alloc, out, kid)
    }
}

/// Puts kids at the end, with the mark between each two.
#[cycle(terms)]
pub fn put_kids(
    alloc: Global,
    out: &mut Bytes,
    mark: &str,
    enclosed: bool,
    kids: &[Term],
) -> Result<(), AllocError>
    ensures { OnOk result (out.new ≡ out.old ++ separated mark.now (kid_texts enclosed (all_written (plains kids.now)))) }
{
    match kids {
        [] => Ok(()),
        [first, rest @ ..] => {
            put_kid(alloc, out, enclosed, first)?;
            put_behind(alloc, out, mark, enclosed, rest)
        }
    }
}

/// Puts kids at the end, each behind the mark.
#[cycle(terms)]
#[tactic(auto, using(floyd_tree::proofs::Heights::height_at))]
fn put_behind(
    alloc: Global,
    out: &mut Bytes,
    mark: &str,
    enclosed: bool,
    kids: &[Term],
) -> Result<(), AllocError>
    ensures { OnOk result (out.new ≡ out.old ++ following mark.now (kid_texts enclosed (all_written (plains kids.now)))) }
{
    'kids: for kid in kids {
        out.extend(mark.as_bytes())?;
        put_kid(alloc, out, enclosed, kid)?;
    }
    Ok(())
}

/// The texts of the terms.
#[cycle(terms)]
#[tactic(auto, using(floyd_tree::proofs::Heights::height_at))]
pub(crate) fn texts_of(alloc: Global, terms: &[Term]) -> Result<Vec<Bytes>, AllocError>
    ensures { IfOk result (λ texts. texts.items ≡ term_texts (plains terms.now)) }
{
    let mut texts = Vec::with_capacity(alloc, terms.len())?;
    'terms: for term in terms {
        let mut text = Bytes::new(alloc);
        put_term(alloc, &mut text, term)?;
        texts.push(text)?;
    }
    Ok(texts)
}
