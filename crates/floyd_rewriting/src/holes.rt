ghost use Rattle.std.specs.Prelude.{◌≡◌, ◌++◌, ◌∷◌, [], IfOk, None, OnOk, is_some};
ghost use Rattle.std.specs.Option.{unwrap_or};
ghost use Rattle.floyd_rewriting.specs.HolesClauses.{IsHole, assertion_after, formula_after, formulas_after, kids_after, term_after, terms_after};
ghost use Rattle.floyd_rewriting.specs.Occurrences.{hide as hide_lem, hides as hides_lem};
ghost use Rattle.floyd_tree.specs.Formulas.{Says, formulas};
ghost use Rattle.floyd_tree.specs.Made.{fault_at};
ghost use Rattle.floyd_tree.specs.MadeFormulas.{formula_fault_at};
ghost use Rattle.floyd_tree.specs.Plain.{At, plains};

use floyd_assert_terms::{terms_in, with_terms};
use floyd_assert_trees::{Assertion, Binder, share_formulas, share_terms};
use floyd_text::Steps;
use floyd_tree::{
    Formula, FormulaHead, FormulaList, Head, MakeStop, Term, TermList, equal, formula_head,
    formula_kids, formula_size, formula_terms, head, height, kids, make, make_formula, mentions,
    size, sort,
};
use sqlite_items::Items;
use std::alloc::{AllocError, Global};
use std::sync::ledger::Ledger;

/// The term with the hole in the place of each occurrence, if there is one.
#[cycle(terms)]
#[tactic(auto, using(crate::proofs::TermsOpened::opened_here, crate::proofs::TermsOpened::opened_none, crate::proofs::TermsOpened::opened_over, floyd_assert_changes::proofs::Heights::heights_below))]
pub fn open_term<L: Ledger>(
    alloc: Global,
    t: &Term,
    from: &Term,
    hole: &Term,
    steps: &mut Steps<L>,
) -> Result<Option<Term>, AllocError>
    requires { IsHole from.now hole.now }
    ensures { IfOk result (λ o. o ≡ term_after from.now hole.now t.now) }
{
    if equal(t, from) {
        return Ok(Some(hole.share()?));
    }
    let _sort = sort(t);
    let _size = size(t);
    let _height = height(t);
    match open_terms(alloc, kids(t).as_slice(), from, hole, steps)? {
        Some(kids) => Ok(Some(node_of(alloc, head(t), kids.as_slice(), steps)?)),
        None => Ok(None),
    }
}

/// The term of this head and these kids, which can be made.
fn node_of<L: Ledger>(
    alloc: Global,
    head: &Head,
    kids: &[Term],
    steps: &mut Steps<L>,
) -> Result<Term, AllocError>
    requires { fault_at (At head.now (plains kids.now)) ≡ None }
    ensures { IfOk result (λ t. t ≡ At head.now (plains kids.now)) }
{
    match make(alloc, head.share()?, kids, steps) {
        Ok(made) => Ok(made),
        Err(MakeStop::IllSorted) => unreachable!(),
        Err(MakeStop::TooLarge) => unreachable!(),
        Err(MakeStop::Memory) => Err(AllocError),
    }
}

/// Adds the new term, or the old one where there is none, and tells whether there is.
fn push_term(all: &mut Vec<Term>, new: Option<Term>, old: &Term) -> Result<bool, AllocError>
    ensures told { IfOk result (λ b. b ≡ is_some new) }
    ensures pushed { OnOk result (all.new.items ≡ all.old.items ++ unwrap_or new old.now ∷ []) }
{
    match new {
        Some(new) => {
            all.push(new)?;
            Ok(true)
        }
        None => {
            all.push(old.share()?)?;
            Ok(false)
        }
    }
}

/// The terms with the hole in the place of each occurrence, if there is one in some of them.
#[cycle(terms)]
#[tactic(auto, using(floyd_assert_changes::proofs::Heights::height_at))]
pub fn open_terms<L: Ledger>(
    alloc: Global,
    terms: &[Term],
    from: &Term,
    hole: &Term,
    steps: &mut Steps<L>,
) -> Result<Option<TermList>, AllocError>
    requires { IsHole from.now hole.now }
    ensures { IfOk result (λ o. o ≡ terms_after from.now hole.now terms.now) }
{
    let mut all = Vec::with_capacity(alloc, terms.len())?;
    let mut changed = false;
    'terms: for term in terms {
        let new = open_term(alloc, term, from, hole, steps)?;
        let made = push_term(&mut all, new, term)?;
        changed = changed || made;
    }
    if changed {
        Ok(Some(Items::from_vec(all)))
    } else {
        Ok(None)
    }
}

/// Whether the head binds a variable of the term.
fn hides(head: &FormulaHead, from: &Term) -> bool
    ensures { result ≡ hides_lem from.now head.now }
{
    match head {
        FormulaHead::Forall(x, _) => mentions(from, x),
        FormulaHead::Exists(x, _) => mentions(from, x),
        _ => false,
    }
}

/// The formula with the hole in the place of each occurrence, if there is one.
#[cycle(formulas)]
#[tactic(auto, using(crate::proofs::FormulasOpened::formula_none, crate::proofs::FormulasOpened::formula_some, crate::proofs::FormulasOpened::both_fine))]
pub fn open_formula<L: Ledger>(
    alloc: Global,
    f: &Formula,
    from: &Term,
    hole: &Term,
    steps: &mut Steps<L>,
) -> Result<Option<Formula>, AllocError>
    requires { IsHole from.now hole.now }
    ensures { IfOk result (λ o. o ≡ formula_after from.now hole.now f.now) }
{
    let terms = open_terms(alloc, formula_terms(f).as_slice(), from, hole, steps)?;
    let kids = open_kids(alloc, f, from, hole, steps)?;
    if terms.is_none() && kids.is_none() {
        return Ok(None);
    }
    let _size = formula_size(f);
    let _height = f.height();
    let terms = terms_or(alloc, terms, formula_terms(f).as_slice())?;
    let kids = formulas_or(alloc, kids, formula_kids(f).as_slice())?;
    let head = formula_head(f);
    Ok(Some(formula_of(alloc, head, terms.as_slice(), kids.as_slice(), steps)?))
}

/// The formulas below the head with holes, if there is an occurrence in some of them.
#[cycle(formulas)]
#[tactic(auto, using(floyd_assert_changes::proofs::Heights::formulas_below))]
fn open_kids<L: Ledger>(
    alloc: Global,
    f: &Formula,
    from: &Term,
    hole: &Term,
    steps: &mut Steps<L>,
) -> Result<Option<FormulaList>, AllocError>
    requires { IsHole from.now hole.now }
    ensures { IfOk result (λ o. o ≡ kids_after from.now hole.now f.now) }
{
    if hides(formula_head(f), from) {
        return Ok(None);
    }
    open_formulas(alloc, formula_kids(f).as_slice(), from, hole, steps)
}

/// The new terms, or the old ones where there are none.
fn terms_or(alloc: Global, new: Option<TermList>, old: &[Term]) -> Result<TermList, AllocError>
    ensures { IfOk result (λ ts. ts ≡ unwrap_or new old.now) }
{
    match new {
        Some(new) => Ok(new),
        None => share_terms(alloc, old),
    }
}

/// The new formulas, or the old ones where there are none.
fn formulas_or(
    alloc: Global,
    new: Option<FormulaList>,
    old: &[Formula],
) -> Result<FormulaList, AllocError>
    ensures { IfOk result (λ fs. fs ≡ unwrap_or new old.now) }
{
    match new {
        Some(new) => Ok(new),
        None => share_formulas(alloc, old),
    }
}

/// The formula of this head, these terms and these formulas, which can be made.
fn formula_of<L: Ledger>(
    alloc: Global,
    head: &FormulaHead,
    terms: &[Term],
    kids: &[Formula],
    steps: &mut Steps<L>,
) -> Result<Formula, AllocError>
    requires { formula_fault_at (Says head.now (plains terms.now) (formulas kids.now)) ≡ None }
    ensures { IfOk result (λ f. f ≡ Says head.now (plains terms.now) (formulas kids.now)) }
{
    match make_formula(alloc, head.share()?, terms, kids, steps) {
        Ok(made) => Ok(made),
        Err(MakeStop::IllSorted) => unreachable!(),
        Err(MakeStop::TooLarge) => unreachable!(),
        Err(MakeStop::Memory) => Err(AllocError),
    }
}

/// Adds the new formula, or the old one where there is none, and tells whether there is.
fn push_formula(
    all: &mut Vec<Formula>,
    new: Option<Formula>,
    old: &Formula,
) -> Result<bool, AllocError>
    ensures told { IfOk result (λ b. b ≡ is_some new) }
    ensures pushed { OnOk result (all.new.items ≡ all.old.items ++ unwrap_or new old.now ∷ []) }
{
    match new {
        Some(new) => {
            all.push(new)?;
            Ok(true)
        }
        None => {
            all.push(old.share()?)?;
            Ok(false)
        }
    }
}

/// The formulas with the hole in the place of each occurrence, if there is one in some of them.
#[cycle(formulas)]
#[tactic(auto, using(floyd_assert_changes::proofs::Heights::formula_height_at))]
pub fn open_formulas<L: Ledger>(
    alloc: Global,
    all: &[Formula],
    from: &Term,
    hole: &Term,
    steps: &mut Steps<L>,
) -> Result<Option<FormulaList>, AllocError>
    requires { IsHole from.now hole.now }
    ensures { IfOk result (λ o. o ≡ formulas_after from.now hole.now all.now) }
{
    let mut made = Vec::with_capacity(alloc, all.len())?;
    let mut changed = false;
    'formulas: for formula in all {
        let new = open_formula(alloc, formula, from, hole, steps)?;
        let opened = push_formula(&mut made, new, formula)?;
        changed = changed || opened;
    }
    if changed {
        Ok(Some(Items::from_vec(made)))
    } else {
        Ok(None)
    }
}

/// Whether one of the names is that of a variable of the term.
fn hide(binders: &[Binder], from: &Term) -> bool
    ensures { result ≡ hide_lem from.now binders.now }
{
    'binders: for binder in binders {
        if mentions(from, &binder.name) {
            return true;
        }
    }
    false
}

/// The assertion with the hole in the place of each occurrence, if there is one.
#[tactic(auto, using(crate::proofs::AssertionsOpened::assertion_hidden, crate::proofs::AssertionsOpened::assertion_none))]
pub fn open_assertion<L: Ledger>(
    alloc: Global,
    a: &Assertion,
    from: &Term,
    hole: &Term,
    steps: &mut Steps<L>,
) -> Result<Option<Assertion>, AllocError>
    requires { IsHole from.now hole.now }
    ensures { IfOk result (λ o. o ≡ assertion_after from.now hole.now a.now) }
{
    if hide(a.existentials.as_slice(), from) {
        return Ok(None);
    }
    let all = terms_in(alloc, a)?;
    let terms = open_terms(alloc, all.as_slice(), from, hole, steps)?;
    let props = open_formulas(alloc, a.props.as_slice(), from, hole, steps)?;
    if terms.is_none() && props.is_none() {
        return Ok(None);
    }
    let terms = terms_or(alloc, terms, all.as_slice())?;
    let props = formulas_or(alloc, props, a.props.as_slice())?;
    Ok(Some(with_terms(alloc, a, props, terms.as_slice())?))
}
