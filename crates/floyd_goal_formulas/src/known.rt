ghost use Rattle.std.specs.Prelude.{◌≡◌};
ghost use Rattle.floyd_goal_formulas.specs.Known.{and_known, compared, is_absurd, known as known_lem, literal_of, not_known, number_in, or_known};
ghost use Rattle.std.specs.Prelude.{int_le};
ghost use Rattle.std.specs.Ordering.{int_eq};
ghost use Rattle.floyd_goal_formulas.specs.KnownClauses.{known_of_both, known_of_terms};
ghost use Rattle.floyd_goal_formulas.specs.Said.{pair_of};
ghost use Rattle.floyd_tree.specs.Formulas.{form_of};

use crate::saying::term_pair;
use floyd_tree::{
    Formula, FormulaHead, Head, Term, formula_head, formula_kids, formula_terms, head,
};

fn number_in(head: &Head) -> Option<i128>
    ensures { result ≡ number_in head.now }
{
    match head {
        Head::Literal(z) => Some(*z),
        _ => None,
    }
}

/// The number of a literal.
pub fn literal_of(t: &Term) -> Option<i128>
    ensures { result ≡ literal_of t.now }
{
    number_in(head(t))
}

fn equal_literals(a: Option<i128>, b: Option<i128>) -> Option<bool>
    ensures { result ≡ compared int_eq a b }
{
    match (a, b) {
        (Some(m), Some(n)) => Some(m == n),
        (Some(_), None) => None,
        (None, _) => None,
    }
}

fn ordered_literals(a: Option<i128>, b: Option<i128>) -> Option<bool>
    ensures { result ≡ compared int_le a b }
{
    match (a, b) {
        (Some(m), Some(n)) => Some(m <= n),
        (Some(_), None) => None,
        (None, _) => None,
    }
}

fn and_known(p: Option<bool>, q: Option<bool>) -> Option<bool>
    ensures { result ≡ and_known p q }
{
    match (p, q) {
        (Some(true), q) => q,
        (Some(false), _) => Some(false),
        (None, Some(false)) => Some(false),
        (None, Some(true)) => None,
        (None, None) => None,
    }
}

fn or_known(p: Option<bool>, q: Option<bool>) -> Option<bool>
    ensures { result ≡ or_known p q }
{
    match (p, q) {
        (Some(true), _) => Some(true),
        (Some(false), q) => q,
        (None, Some(true)) => Some(true),
        (None, Some(false)) => None,
        (None, None) => None,
    }
}

/// Whether the formula is `False`.
pub fn is_absurd(f: &Formula) -> bool
    ensures { result ≡ is_absurd (form_of f.now) }
{
    match formula_head(f) {
        FormulaHead::False => true,
        _ => false,
    }
}

fn not_known(conclusion: &Formula, p: Option<bool>) -> Option<bool>
    ensures { result ≡ not_known conclusion.now p }
{
    if is_absurd(conclusion) {
        p.map(|p| !p)
    } else {
        None
    }
}

fn known_of_terms(head: &FormulaHead, terms: &[Term]) -> Option<bool>
    ensures { result ≡ known_of_terms head.now (pair_of terms.now) }
{
    let (a, b) = term_pair(terms)?;
    match head {
        FormulaHead::Equal => equal_literals(literal_of(a), literal_of(b)),
        FormulaHead::AtMost => ordered_literals(literal_of(a), literal_of(b)),
        _ => None,
    }
}

fn known_of_both(
    head: &FormulaHead,
    conclusion: &Formula,
    p: Option<bool>,
    q: Option<bool>,
) -> Option<bool>
    ensures { result ≡ known_of_both head.now conclusion.now p q }
{
    match head {
        FormulaHead::And => and_known(p, q),
        FormulaHead::Or => or_known(p, q),
        FormulaHead::Implies => not_known(conclusion, p),
        _ => None,
    }
}

/// Whether the formula is true or false by the literals in it, where they decide that.
pub fn known(f: &Formula) -> Option<bool>
    ensures { result ≡ known_lem f.now }
{
    match formula_kids(f).as_slice() {
        [] => known_of_terms(formula_head(f), formula_terms(f).as_slice()),
        [a, b] => known_of_both(formula_head(f), b, known(a), known(b)),
        _ => None,
    }
}
