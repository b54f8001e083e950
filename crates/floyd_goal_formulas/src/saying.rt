ghost use Rattle.std.specs.Prelude.{◌≡◌, option_map};
ghost use Rattle.std.specs.Map.Iter.{deref_pair};
ghost use Rattle.std.specs.Option.{option_copied};
ghost use Rattle.floyd_goal_formulas.specs.Said.{last_of, one_of, pair_of, said as said_lem, seen};

use floyd_text::Name;
use floyd_tree::{
    Formula, FormulaHead, Shape, Sort, Term, formula_head, formula_kids, formula_terms,
};

/// What a formula says at its head.
#[derive(Clone, Copy)]
pub enum Said<'a> {
    Equation(&'a Term, &'a Term),
    /// The first number is at most the second.
    Inequality(&'a Term, &'a Term),
    /// `isptr`.
    Pointer(&'a Term),
    /// `defined`.
    NotUndefined(&'a Term),
    /// `hasty`.
    OfType(&'a Shape, &'a Term),
    Absurd,
    Implication(&'a Formula, &'a Formula),
    Either(&'a Formula, &'a Formula),
    Both(&'a Formula, &'a Formula),
    ForAll(&'a Name, &'a Sort, &'a Formula),
    ThereIs(&'a Name, &'a Sort, &'a Formula),
    /// A formula of another kind.
    Else,
}

/// What the formula says at its head.
pub fn says(f: &Formula) -> Said<'_>
    ensures { seen result ≡ said_lem f.now }
{
    let terms = formula_terms(f).as_slice();
    let kids = formula_kids(f).as_slice();
    match formula_head(f) {
        FormulaHead::True => Said::Else,
        FormulaHead::False => Said::Absurd,
        FormulaHead::Implies => match formula_pair(kids) {
            Some((a, b)) => Said::Implication(a, b),
            None => Said::Else,
        },
        FormulaHead::Or => match formula_pair(kids) {
            Some((a, b)) => Said::Either(a, b),
            None => Said::Else,
        },
        FormulaHead::And => match formula_pair(kids) {
            Some((a, b)) => Said::Both(a, b),
            None => Said::Else,
        },
        FormulaHead::Forall(x, s) => match one_formula(kids) {
            Some(body) => Said::ForAll(x, s, body),
            None => Said::Else,
        },
        FormulaHead::Exists(x, s) => match one_formula(kids) {
            Some(body) => Said::ThereIs(x, s, body),
            None => Said::Else,
        },
        FormulaHead::Equal => match term_pair(terms) {
            Some((a, b)) => Said::Equation(a, b),
            None => Said::Else,
        },
        FormulaHead::AtMost => match term_pair(terms) {
            Some((a, b)) => Said::Inequality(a, b),
            None => Said::Else,
        },
        FormulaHead::IsPtr => match one_term(terms) {
            Some(v) => Said::Pointer(v),
            None => Said::Else,
        },
        FormulaHead::Defined => match one_term(terms) {
            Some(v) => Said::NotUndefined(v),
            None => Said::Else,
        },
        FormulaHead::Hasty(shape) => match last_term(terms) {
            Some(v) => Said::OfType(shape.get(), v),
            None => Said::Else,
        },
        FormulaHead::Compatible(_, _) => Said::Else,
        FormulaHead::FuncPtr(_) => Said::Else,
    }
}

pub fn term_pair(terms: &[Term]) -> Option<(&Term, &Term)>
    ensures { option_map deref_pair result ≡ pair_of terms.now }
{
    match terms {
        [a, b] => Some((a, b)),
        _ => None,
    }
}

fn formula_pair(formulas: &[Formula]) -> Option<(&Formula, &Formula)>
    ensures { option_map deref_pair result ≡ pair_of formulas.now }
{
    match formulas {
        [a, b] => Some((a, b)),
        _ => None,
    }
}

pub fn one_term(terms: &[Term]) -> Option<&Term>
    ensures { option_copied result ≡ one_of terms.now }
{
    match terms {
        [a] => Some(a),
        _ => None,
    }
}

fn one_formula(formulas: &[Formula]) -> Option<&Formula>
    ensures { option_copied result ≡ one_of formulas.now }
{
    match formulas {
        [a] => Some(a),
        _ => None,
    }
}

fn last_term(terms: &[Term]) -> Option<&Term>
    ensures { option_copied result ≡ last_of terms.now }
{
    terms.last()
}
