//! Whether formulas are well formed, whatever is defined.
ghost use Rattle.std.specs.Prelude.{◌≡◌, ◌++◌, ◌∷◌, [], IfOk};
ghost use Rattle.std.specs.Option.{option_copied};
ghost use Rattle.floyd_pure_formulas.specs.Instances.{is_sort};
ghost use Rattle.floyd_pure_formulas.specs.VariableCases.{sort_named as sort_named_lem};
ghost use Rattle.floyd_tree.specs.Formulas.{formulas};
ghost use Rattle.floyd_tree.specs.Plain.{plains};
ghost use Rattle.tests_pure.specs.Known.{all_known as all_known_lem, binders_of as binders_of_lem, formula_known as formula_known_lem, formulas_known as formulas_known_lem, head_known as head_known_lem, known as known_lem, term_known as term_known_lem, terms_known as terms_known_lem};

use floyd_assert_trees::{Binder, BinderList, share_binders};
use floyd_text::Name;
use floyd_tree::{
    Formula, FormulaHead, Head, Sort, Term, formula_head, formula_kids, formula_size,
    formula_terms, head, kids,
};
use std::alloc::{AllocError, Global};

/// The sort of the first binder of that name.
fn sort_named<'a>(name: &Name, binders: &'a [Binder]) -> Option<&'a Sort>
    ensures { option_copied result ≡ sort_named_lem name.now binders.now }
{
    'binders: for binder in binders {
        if *name == binder.name {
            return Some(&binder.sort);
        }
    }
    None
}

fn has_sort(found: Option<&Sort>, sort: &Sort) -> bool
    ensures { result ≡ is_sort sort.now (option_copied found.entry) }
{
    match found {
        Some(s) => s.matches(sort),
        None => false,
    }
}

/// Whether a node with this head needs no definition, and its variable has its sort.
fn head_known(h: &Head, binders: &[Binder]) -> bool
    ensures { result ≡ head_known_lem binders.now h.now }
{
    match h {
        Head::Variable(name, sort) => has_sort(sort_named(name, binders), sort),
        Head::Default(_, _) => false,
        Head::Fun(_, _, _) => false,
        _ => true,
    }
}

/// Whether the term is well formed under the binders, whatever is defined.
#[cycle(term_known)]
#[tactic(auto, using(floyd_tree::proofs::Heights::heights_below, crate::proofs::KnownLemmas::term_parts))]
pub fn term_known(t: &Term, binders: &[Binder]) -> bool
    ensures { result ≡ term_known_lem binders.now t.now }
{
    head_known(head(t), binders) && terms_known(kids(t).as_slice(), binders)
}

#[cycle(term_known)]
#[tactic(auto, using(floyd_tree::proofs::Heights::height_at))]
fn terms_known(terms: &[Term], binders: &[Binder]) -> bool
    ensures { result ≡ terms_known_lem binders.now (plains terms.now) }
{
    'terms: for term in terms {
        if !term_known(term, binders) {
            return false;
        }
    }
    true
}

/// That binder alone.
fn one_binder(alloc: Global, name: &Name, sort: &Sort) -> Result<BinderList, AllocError>
    ensures { IfOk result (λ bs. bs ≡ record { name = name.now; sort = sort.now } ∷ []) }
{
    let name = name.share()?;
    let sort = sort.share()?;
    let mut all = BinderList::new(alloc);
    all.push(Binder { name, sort })?;
    Ok(all)
}

/// The variable of a quantifier, if the head is one.
fn binders_of(alloc: Global, h: &FormulaHead) -> Result<BinderList, AllocError>
    ensures { IfOk result (λ bs. bs ≡ binders_of_lem h.now) }
{
    match h {
        FormulaHead::Forall(name, sort) => one_binder(alloc, name, sort),
        FormulaHead::Exists(name, sort) => one_binder(alloc, name, sort),
        _ => Ok(BinderList::new(alloc)),
    }
}

/// The binders below a head.
fn below(alloc: Global, h: &FormulaHead, binders: &[Binder]) -> Result<BinderList, AllocError>
    ensures { IfOk result (λ bs. bs ≡ binders_of_lem h.now ++ binders.now) }
{
    let mut all = binders_of(alloc, h)?;
    all.append(share_binders(alloc, binders)?)?;
    Ok(all)
}

#[cycle(formula_known)]
#[tactic(auto, using(floyd_tree::proofs::FormulaLemmas::formulas_below, crate::proofs::KnownLemmas::formula_parts))]
fn formula_known(alloc: Global, f: &Formula, binders: &[Binder]) -> Result<bool, AllocError>
    ensures { IfOk result (λ known. known ≡ formula_known_lem binders.now f.now) }
{
    if !terms_known(formula_terms(f).as_slice(), binders) {
        return Ok(false);
    }
    let binders = below(alloc, formula_head(f), binders)?;
    let known = formulas_known(alloc, formula_kids(f).as_slice(), binders.as_slice())?;
    Ok(known)
}

#[cycle(formula_known)]
#[tactic(auto, using(floyd_tree::proofs::FormulaLemmas::formula_height_at))]
fn formulas_known(alloc: Global, all: &[Formula], binders: &[Binder]) -> Result<bool, AllocError>
    ensures { IfOk result (λ known. known ≡ formulas_known_lem binders.now (formulas all.now)) }
{
    'formulas: for f in all {
        if !formula_known(alloc, f, binders)? {
            return Ok(false);
        }
    }
    Ok(true)
}

/// Whether the formula is well formed under the binders, whatever is defined.
pub fn known(alloc: Global, f: &Formula, binders: &[Binder]) -> Result<bool, AllocError>
    ensures { IfOk result (λ b. b ≡ known_lem binders.now f.now) }
{
    formula_size(f);
    let known = formula_known(alloc, f, binders)?;
    Ok(known)
}

pub fn all_known(alloc: Global, all: &[Formula], binders: &[Binder]) -> Result<bool, AllocError>
    ensures { IfOk result (λ b. b ≡ all_known_lem binders.now all.now) }
{
    'formulas: for f in all {
        if !known(alloc, f, binders)? {
            return Ok(false);
        }
    }
    Ok(true)
}
