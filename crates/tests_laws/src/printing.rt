//! Formulas and refusals as text.
use floyd_listlaw::Law;
use floyd_text::{Name, No, Shown};
use floyd_tree::{
    Formula, FormulaHead, Head, Operator, Term, formula_head, formula_kids, formula_terms, head,
    kids,
};
use std::alloc::AllocError;
use std::fmt::Write;

/// How deep terms and formulas are printed at most.
const DEPTH: u32 = 16;

fn print_name(text: &mut String, name: &Name) -> Result<(), AllocError> {
    for b in name.as_slice() {
        text.push(*b as char)?;
    }
    Ok(())
}

/// The comma before what is not the first.
fn print_comma(text: &mut String, first: bool) -> Result<(), AllocError> {
    if first { Ok(()) } else { text.push_str(", ") }
}

/// The word of an operator that stands before its arguments, or the sign of one that stands between them.
fn operator_word(operator: Operator) -> (&'static str, bool) {
    match operator {
        Operator::Add => (" + ", true),
        Operator::Sub => (" - ", true),
        Operator::Append => (" ++ ", true),
        Operator::Cons => (" :: ", true),
        Operator::Nullval => ("nullval", false),
        Operator::Len => ("len", false),
        Operator::Rev => ("rev", false),
        Operator::Sum => ("sum", false),
        Operator::Vint => ("Vint", false),
        Operator::Vints => ("vints", false),
        Operator::Nth => ("nth", false),
        Operator::Upd => ("upd", false),
        Operator::Sublist => ("sublist", false),
        _ => ("?", false),
    }
}

/// Whether a term is written with a sign between its kids, so that it stands in parentheses below another.
fn has_sign(t: &Term) -> bool {
    match head(t) {
        Head::Operator(operator) => operator_word(*operator).1 && !is_single(t),
        _ => false,
    }
}

/// Whether a term is a list of one item, as it is written.
fn is_single(t: &Term) -> bool {
    match (head(t), kids(t).as_slice()) {
        (Head::Operator(Operator::Cons), [_, rest]) => matches!(head(rest), Head::Nil(_)),
        _ => false,
    }
}

#[cycle(terms)]
fn print_term(text: &mut String, t: &Term, depth: u32) -> Result<(), AllocError> {
    if depth == 0 {
        return text.push_str("?");
    }
    let kids = kids(t).as_slice();
    match head(t) {
        Head::Literal(n) => text.push_str(if *n == 0 { "0" } else { "1" }),
        Head::Variable(name, _) => print_name(text, name),
        Head::Nil(_) => text.push_str("nil"),
        Head::Signed(_) => print_call(text, "signed(32, ", kids, depth - 1),
        Head::Unsigned(_) => print_call(text, "unsigned(32, ", kids, depth - 1),
        Head::Operator(operator) => print_operator(text, *operator, t, depth - 1),
        _ => text.push_str("?"),
    }
}

#[cycle(terms)]
fn print_operator(
    text: &mut String,
    operator: Operator,
    t: &Term,
    depth: u32,
) -> Result<(), AllocError> {
    let (word, between) = operator_word(operator);
    match kids(t).as_slice() {
        [] => text.push_str(word),
        [a, _] if is_single(t) => {
            text.push_str("[")?;
            print_term(text, a, depth)?;
            text.push_str("]")
        }
        [a, b] if between => {
            print_side(text, a, depth)?;
            text.push_str(word)?;
            print_side(text, b, depth)
        }
        all => {
            text.push_str(word)?;
            print_call(text, "(", all, depth)
        }
    }
}

/// A term beside a sign, in parentheses where it has a sign of its own.
#[cycle(terms)]
fn print_side(text: &mut String, t: &Term, depth: u32) -> Result<(), AllocError> {
    if !has_sign(t) {
        return print_term(text, t, depth);
    }
    text.push_str("(")?;
    print_term(text, t, depth)?;
    text.push_str(")")
}

/// Terms between what opens them and a parenthesis.
#[cycle(terms)]
fn print_call(text: &mut String, open: &str, terms: &[Term], depth: u32) -> Result<(), AllocError> {
    text.push_str(open)?;
    let mut first = true;
    'terms: for term in terms {
        print_comma(text, first)?;
        print_term(text, term, depth)?;
        first = false;
    }
    text.push_str(")")
}

fn print_formula(text: &mut String, f: &Formula, depth: u32) -> Result<(), AllocError> {
    if depth == 0 {
        return text.push_str("?");
    }
    let sign = match formula_head(f) {
        FormulaHead::False => "False",
        FormulaHead::Equal => " = ",
        FormulaHead::AtMost => " <= ",
        FormulaHead::IsPtr => "isptr",
        FormulaHead::Or => " or ",
        FormulaHead::Implies => " -> ",
        _ => "?",
    };
    match (formula_terms(f).as_slice(), formula_kids(f).as_slice()) {
        ([a, b], []) => {
            print_term(text, a, DEPTH)?;
            text.push_str(sign)?;
            print_term(text, b, DEPTH)
        }
        ([], [a, b]) => {
            print_formula(text, a, depth - 1)?;
            text.push_str(sign)?;
            print_formula(text, b, depth - 1)
        }
        ([], []) => text.push_str(sign),
        (terms, _) => {
            text.push_str(sign)?;
            print_call(text, "(", terms, DEPTH)
        }
    }
}

/// The premises with commas between them, and an arrow before the conclusion where there are any.
pub fn print_law(text: &mut String, law: &Law) -> Result<(), AllocError> {
    let mut first = true;
    'premises: for premise in law.premises.as_slice() {
        print_comma(text, first)?;
        print_formula(text, premise, DEPTH)?;
        first = false;
    }
    if !law.premises.is_empty() {
        text.push_str(" => ")?;
    }
    print_formula(text, &law.conclusion, DEPTH)
}

/// The code, and what is shown.
pub fn print_refusal(text: &mut String, no: &No) -> Result<(), AllocError> {
    let code = no.code.number();
    write!(text, "{code}")?;
    match &no.shown {
        Shown::Count(count) => write!(text, " count {count}"),
        Shown::Name(name) => {
            text.push_str(" name ")?;
            print_name(text, name)
        }
        _ => Ok(()),
    }
}
