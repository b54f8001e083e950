//! Whether variables have the sorts of binders of their names, wherever they stand.
ghost use Rattle.std.specs.Prelude.{◌≡◌, IfOk};
ghost use Rattle.std.specs.Option.{option_copied};
ghost use Rattle.floyd_pure_formulas.specs.VariableCases.{sort_named as sort_named_lem};
ghost use Rattle.floyd_tree.specs.Formulas.{formulas};
ghost use Rattle.floyd_tree.specs.Plain.{plains};
ghost use Rattle.tests_entail.specs.Suits.{assertion_suits as assertion_suits_lem, formula_suits as formula_suits_lem, formulas_suit as formulas_suit_lem, head_suits as head_suits_lem, sort_suits as sort_suits_lem, term_suits as term_suits_lem, terms_suit as terms_suit_lem};

use floyd_assert::{Assertion, Binder};
use floyd_assert_terms::terms_in;
use floyd_text::Name;
use floyd_tree::{Formula, Head, Sort, Term, formula_kids, formula_terms, head, kids};
use std::alloc::{AllocError, Global};

/// The sort of the first binder of that name.
fn sort_named<'a>(name: &Name, binders: &'a [Binder]) -> Option<&'a Sort>
    ensures { option_copied result ≡ sort_named_lem name.now binders.now }
{
    'binders: for binder in binders {
        if *name == binder.name {
            return Some(&binder.sort);
        }
    }
    None
}

fn sort_suits(found: Option<&Sort>, sort: &Sort) -> bool
    ensures { result ≡ sort_suits_lem sort.now (option_copied found.entry) }
{
    match found {
        Some(s) => s.matches(sort),
        None => true,
    }
}

fn head_suits(h: &Head, binders: &[Binder]) -> bool
    ensures { result ≡ head_suits_lem binders.now h.now }
{
    match h {
        Head::Variable(name, sort) => sort_suits(sort_named(name, binders), sort),
        _ => true,
    }
}

#[cycle(term_suits)]
#[tactic(auto, using(floyd_tree::proofs::Heights::heights_below, crate::proofs::SuitLemmas::term_parts))]
fn term_suits(t: &Term, binders: &[Binder]) -> bool
    ensures { result ≡ term_suits_lem binders.now t.now }
{
    head_suits(head(t), binders) && terms_suit(kids(t).as_slice(), binders)
}

#[cycle(term_suits)]
#[tactic(auto, using(floyd_tree::proofs::Heights::height_at))]
fn terms_suit(terms: &[Term], binders: &[Binder]) -> bool
    ensures { result ≡ terms_suit_lem binders.now (plains terms.now) }
{
    'terms: for term in terms {
        if !term_suits(term, binders) {
            return false;
        }
    }
    true
}

#[cycle(formula_suits)]
#[tactic(auto, using(floyd_tree::proofs::FormulaLemmas::formulas_below, crate::proofs::SuitLemmas::formula_parts))]
fn formula_suits(f: &Formula, binders: &[Binder]) -> bool
    ensures { result ≡ formula_suits_lem binders.now f.now }
{
    terms_suit(formula_terms(f).as_slice(), binders)
        && formulas_suit(formula_kids(f).as_slice(), binders)
}

#[cycle(formula_suits)]
#[tactic(auto, using(floyd_tree::proofs::FormulaLemmas::formula_height_at))]
fn formulas_suit(all: &[Formula], binders: &[Binder]) -> bool
    ensures { result ≡ formulas_suit_lem binders.now (formulas all.now) }
{
    'formulas: for f in all {
        if !formula_suits(f, binders) {
            return false;
        }
    }
    true
}

pub fn assertion_suits(alloc: Global, a: &Assertion, binders: &[Binder]) -> Result<bool, AllocError>
    ensures { IfOk result (λ b. b ≡ assertion_suits_lem binders.now a.now) }
{
    let terms = terms_in(alloc, a)?;
    let props = formulas_suit(a.props.as_slice(), binders);
    Ok(props && terms_suit(terms.as_slice(), binders))
}
