ghost use Rattle.std.specs.Prelude.{◌≡◌, ◌^◌};
ghost use Rattle.floyd_tree.specs.Formulas.{formula_mentions, formulas, formulas_mention};
ghost use Rattle.floyd_tree.specs.Plain.{mentions, mentions_in, plains};
ghost use Rattle.floyd_tree_sorts.specs.Prints.{slot};

use crate::formulas::{Formula, formula_head, formula_kids, formula_terms};
use crate::term::{Term, head, kids};
use floyd_text::Name;
use floyd_tree_sorts::slot;

/// Whether the variable occurs.
pub fn mentions(t: &Term, x: &Name) -> bool
    ensures { result ≡ mentions x.now t.now }
{
    mentions_bit(t, x, 1 << slot(x))
}

/// The same with the variable's bit.
#[cycle(mentions)]
#[tactic(auto, using(crate::proofs::Heights::heights_below, crate::proofs::Summaries::not_mentioned, crate::proofs::Summaries::mentions_parts))]
fn mentions_bit(t: &Term, x: &Name, bit: u64) -> bool
    requires { bit ≡ 2 ^ slot x.now }
    ensures { result ≡ mentions x.now t.now }
{
    if t.summary() & bit == 0 {
        return false;
    }
    head(t).is_variable(x) || mentions_in(kids(t).as_slice(), x, bit)
}

#[cycle(mentions)]
#[tactic(auto, using(crate::proofs::Heights::height_at))]
fn mentions_in(terms: &[Term], x: &Name, bit: u64) -> bool
    requires { bit ≡ 2 ^ slot x.now }
    ensures { result ≡ mentions_in x.now (plains terms.now) }
{
    'terms: for term in terms {
        if mentions_bit(term, x, bit) {
            return true;
        }
    }
    false
}

/// Whether the variable is free in the formula.
pub fn formula_mentions(f: &Formula, x: &Name) -> bool
    ensures { result ≡ formula_mentions x.now f.now }
{
    formula_mentions_bit(f, x, 1 << slot(x))
}

/// The same with the variable's bit.
#[cycle(formula_mentions)]
#[tactic(auto, using(crate::proofs::FormulaLemmas::formulas_below, crate::proofs::FormulaSummaries::not_free, crate::proofs::FormulaSummaries::formula_mentions_parts))]
fn formula_mentions_bit(f: &Formula, x: &Name, bit: u64) -> bool
    requires { bit ≡ 2 ^ slot x.now }
    ensures { result ≡ formula_mentions x.now f.now }
{
    if f.summary() & bit == 0 {
        return false;
    }
    if mentions_in(formula_terms(f).as_slice(), x, bit) {
        return true;
    }
    !formula_head(f).binds(x) && formulas_mention(formula_kids(f).as_slice(), x, bit)
}

#[cycle(formula_mentions)]
#[tactic(auto, using(crate::proofs::FormulaLemmas::formula_height_at))]
fn formulas_mention(kids: &[Formula], x: &Name, bit: u64) -> bool
    requires { bit ≡ 2 ^ slot x.now }
    ensures { result ≡ formulas_mention x.now (formulas kids.now) }
{
    'kids: for kid in kids {
        if formula_mentions_bit(kid, x, bit) {
            return true;
        }
    }
    false
}
