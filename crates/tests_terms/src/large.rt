//! Large terms: chains of complements and complete trees of sums.
ghost use Rattle.std.specs.Prelude.{◌≡◌, ◌+◌, ◌≤◌, false, length, IfOk};
ghost use Rattle.floyd_tree.specs.Plain.{mentions};
ghost use Rattle.tests_terms.specs.Full.{full, number_named, spine, sum_of};

use crate::trees::Stop;
use floyd_text::{Name, Steps};
use floyd_tree::{
    Head, MakeStop, Operator, RewriteStop, Sort, Term, equal, make, mentions, rewrite_at, subst,
};
use std::alloc::Global;
use std::sync::ledger::Ledger;

/// That many complements over the leaf.
pub fn chain<L: Ledger>(
    alloc: Global,
    count: u32,
    leaf: Term,
    steps: &mut Steps<L>,
) -> Result<Term, MakeStop> {
    let mut term = leaf;
    'levels: for _ in 0..count {
        let below = [term];
        term = make(alloc, Head::Operator(Operator::Bnot), &below, steps)?;
    }
    Ok(term)
}

/// The sum of two terms.
fn sum<L: Ledger>(alloc: Global, a: Term, b: Term, steps: &mut Steps<L>) -> Result<Term, MakeStop>
    ensures { IfOk result (λ t. t ≡ sum_of a b) }
{
    make(alloc, Head::Operator(Operator::Add), &[a, b], steps)
}

/// That many levels of sums over the leaf, whose parts are shared.
pub fn full_tree<L: Ledger>(
    alloc: Global,
    count: u32,
    leaf: &Term,
    steps: &mut Steps<L>,
) -> Result<Term, MakeStop>
    ensures { IfOk result (λ t. t ≡ full count leaf.now) }
{
    let mut term = leaf.share()?;
    'levels: for _level in 0..count {
        term = sum(alloc, term.share()?, term, steps)?;
    }
    Ok(term)
}

/// The same with another leaf at the left.
pub fn spine_tree<L: Ledger>(
    alloc: Global,
    count: u32,
    first: &Term,
    leaf: &Term,
    steps: &mut Steps<L>,
) -> Result<Term, MakeStop>
    ensures { IfOk result (λ t. t ≡ spine count first.now leaf.now) }
{
    let mut term = first.share()?;
    let mut rest = leaf.share()?;
    'levels: for _level in 0..count {
        term = sum(alloc, term, rest.share()?, steps)?;
        rest = sum(alloc, rest.share()?, rest, steps)?;
    }
    Ok(term)
}

/// Sums of neighbours.
fn paired<L: Ledger>(
    alloc: Global,
    terms: &[Term],
    steps: &mut Steps<L>,
) -> Result<Vec<Term>, MakeStop> {
    let mut all = Vec::new(alloc);
    'pairs: for pair in terms.chunks(2) {
        all.push(make(alloc, Head::Operator(Operator::Add), pair, steps)?)?;
    }
    Ok(all)
}

/// The same tree as `full_tree` over the literal 1, in which no part is shared.
pub fn fresh_tree<L: Ledger>(
    alloc: Global,
    count: u32,
    steps: &mut Steps<L>,
) -> Result<Term, Stop> {
    let mut terms = Vec::new(alloc);
    'leaves: for _ in 0..1u32.checked_shl(count).unwrap_or(0) {
        terms.push(make(alloc, Head::Literal(1), &[], steps)?)?;
    }
    'levels: for _ in 0..count {
        terms = paired(alloc, terms.as_slice(), steps)?;
    }
    match terms.pop() {
        Some(term) => Ok(term),
        None => Err(Stop::Unreadable),
    }
}

/// A variable that is the leftmost leaf alone is replaced, in at most as many new nodes as there are levels.
fn substitute_leftmost<L: Ledger>(
    alloc: Global,
    count: u32,
    tree: &Term,
    x: &Name,
    leaf: &Term,
    by: &Term,
    steps: &mut Steps<L>,
) -> Result<Term, MakeStop>
    requires tree { tree.now ≡ spine count (number_named x.now) leaf.now }
    requires other { mentions x.now leaf.now ≡ false }
    ensures { steps.new ≤ steps.old + count }
{
    subst(alloc, tree, x, by, steps)
}

/// The leftmost leaf is replaced, in at most as many new nodes as there are levels.
fn replace_leftmost<L: Ledger>(
    alloc: Global,
    path: &[u32],
    tree: &Term,
    leaf: &Term,
    steps: &mut Steps<L>,
) -> Result<Term, RewriteStop>
    ensures { steps.new ≤ steps.old + length path.now }
{
    rewrite_at(alloc, tree, path, leaf, steps)
}

/// Whether both replace the leftmost leaf of a complete tree with so many levels.
pub fn replaces_leftmost<L: Ledger>(
    alloc: Global,
    count: u32,
    steps: &mut Steps<L>,
) -> Result<bool, Stop> {
    let x = Name::from_slice(alloc, b"x")?;
    let variable = make(alloc, Head::Variable(x.share()?, Sort::Z), &[], steps)?;
    let one = make(alloc, Head::Literal(1), &[], steps)?;
    let two = make(alloc, Head::Literal(2), &[], steps)?;
    let tree = spine_tree(alloc, count, &variable, &one, steps)?;
    if !mentions(&tree, &x) || mentions(&one, &x) {
        return Ok(false);
    }
    let changed = substitute_leftmost(alloc, count, &tree, &x, &one, &two, steps)?;
    let mut path = Vec::new(alloc);
    path.resize(count as usize, 0)?;
    let rewritten = replace_leftmost(alloc, path.as_slice(), &tree, &two, steps)?;
    let wanted = spine_tree(alloc, count, &two, &one, steps)?;
    Ok(equal(&changed, &wanted) && equal(&rewritten, &wanted) && !equal(&tree, &wanted))
}
