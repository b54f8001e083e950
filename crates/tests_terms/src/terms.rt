use crate::heads::{formula_head_of, head_of};
use crate::large::{chain, fresh_tree, full_tree, spine_tree};
use crate::trees::{Stop, Tree, part, text};
use floyd_text::Steps;
use floyd_tree::{Formula, FormulaList, Head, Term, make, make_formula};
use sqlite_items::Items;
use std::alloc::Global;
use std::sync::ledger::Ledger;

/// How deep terms and formulas are written at most.
pub const DEPTH: u32 = 32;

/// A term: a number, an operator's word, or a head with its parts and kids between parentheses. `Chain`, `Full`, `Spine`
/// and `Fresh` are large ones.
#[cycle(term)]
pub fn term_of<L: Ledger>(
    alloc: Global,
    tree: &Tree,
    depth: u32,
    steps: &mut Steps<L>,
) -> Result<Term, Stop> {
    match tree {
        Tree::Word(word) => {
            if let Ok(n) = tree.number() {
                return Ok(make(alloc, Head::Literal(n), &[], steps)?);
            }
            let (head, _) = head_of(alloc, text(word), &[])?;
            Ok(make(alloc, head, &[], steps)?)
        }
        Tree::Group(parts) => match parts.as_slice() {
            [first, rest @ ..] => {
                if depth == 0 {
                    return Err(Stop::Unreadable);
                }
                group(alloc, first.word(), rest, depth - 1, steps)
            }
            [] => Err(Stop::Unreadable),
        },
    }
}

#[cycle(term)]
fn group<L: Ledger>(
    alloc: Global,
    word: &str,
    trees: &[Tree],
    depth: u32,
    steps: &mut Steps<L>,
) -> Result<Term, Stop> {
    if word == "Fresh" {
        return fresh_tree(alloc, part(trees, 0)?.count()?, steps);
    }
    if word == "Chain" || word == "Full" || word == "Spine" {
        let terms = terms_of(alloc, trees.get(1..).unwrap_or(&[]), depth, steps)?;
        return large(
            alloc,
            word,
            part(trees, 0)?.count()?,
            terms.as_slice(),
            steps,
        );
    }
    let (head, own) = head_of(alloc, word, trees)?;
    let kids = terms_of(alloc, trees.get(own..).unwrap_or(&[]), depth, steps)?;
    Ok(make(alloc, head, kids.as_slice(), steps)?)
}

fn large<L: Ledger>(
    alloc: Global,
    word: &str,
    count: u32,
    terms: &[Term],
    steps: &mut Steps<L>,
) -> Result<Term, Stop> {
    match terms {
        [leaf] if word == "Chain" => Ok(chain(alloc, count, leaf.share()?, steps)?),
        [leaf] => Ok(full_tree(alloc, count, leaf, steps)?),
        [first, leaf] => Ok(spine_tree(alloc, count, first, leaf, steps)?),
        _ => Err(Stop::Unreadable),
    }
}

#[cycle(term)]
pub fn terms_of<L: Ledger>(
    alloc: Global,
    trees: &[Tree],
    depth: u32,
    steps: &mut Steps<L>,
) -> Result<Vec<Term>, Stop> {
    let mut all = Vec::new(alloc);
    'trees: for tree in trees {
        all.push(term_of(alloc, tree, depth, steps)?)?;
    }
    Ok(all)
}

/// Whether the tree is written as a formula.
fn is_formula(alloc: Global, tree: &Tree) -> bool {
    match tree {
        Tree::Word(word) => formula_head_of(alloc, text(word), &[]).is_ok(),
        Tree::Group(parts) => match parts.as_slice() {
            [first, rest @ ..] => formula_head_of(alloc, first.word(), rest).is_ok(),
            [] => false,
        },
    }
}

/// A formula: a word, or a head with its parts, its terms and then its formulas between parentheses.
#[cycle(formula)]
pub fn formula_of<L: Ledger>(
    alloc: Global,
    tree: &Tree,
    depth: u32,
    steps: &mut Steps<L>,
) -> Result<Formula, Stop> {
    match tree {
        Tree::Word(word) => {
            let (head, _) = formula_head_of(alloc, text(word), &[])?;
            Ok(make_formula(alloc, head, &[], &[], steps)?)
        }
        Tree::Group(parts) => match parts.as_slice() {
            [first, rest @ ..] => {
                if depth == 0 {
                    return Err(Stop::Unreadable);
                }
                formula_group(alloc, first.word(), rest, depth - 1, steps)
            }
            [] => Err(Stop::Unreadable),
        },
    }
}

#[cycle(formula)]
fn formula_group<L: Ledger>(
    alloc: Global,
    word: &str,
    trees: &[Tree],
    depth: u32,
    steps: &mut Steps<L>,
) -> Result<Formula, Stop> {
    let (head, own) = formula_head_of(alloc, word, trees)?;
    let mut terms = Vec::new(alloc);
    let mut kids = Vec::new(alloc);
    'trees: for tree in trees.get(own..).unwrap_or(&[]) {
        if is_formula(alloc, tree) {
            kids.push(formula_of(alloc, tree, depth, steps)?)?;
        } else {
            terms.push(term_of(alloc, tree, depth, steps)?)?;
        }
    }
    Ok(make_formula(alloc, head, terms.as_slice(), kids.as_slice(), steps)?)
}

/// The formula of each tree.
pub fn formulas_of<L: Ledger>(
    alloc: Global,
    trees: &[Tree],
    steps: &mut Steps<L>,
) -> Result<FormulaList, Stop> {
    let mut all = Items::new(alloc);
    'trees: for tree in trees {
        all.push(formula_of(alloc, tree, DEPTH, steps)?)?;
    }
    Ok(all)
}
