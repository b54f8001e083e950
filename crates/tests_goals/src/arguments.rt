//! The arguments of commands from the rows of a table.
use crate::goals::names_of;
use floyd_goal::{Args, Target};
use floyd_text::{Name, Steps};
use floyd_tree::{Weight, WeightList};
use sqlite_items::Items;
use std::alloc::{AllocError, Global};
use std::sync::ledger::Ledger;
use tests_parts::assertion_of;
use tests_terms::{DEPTH, Stop, Tree, formula_of, part, terms_of};

/// The arguments of a command that takes none.
fn no_args(alloc: Global) -> Result<Args, AllocError> {
    Ok(Args {
        name: Name::from_slice(alloc, b"")?,
        terms: Items::new(alloc),
        more: Items::new(alloc),
        names: Items::new(alloc),
        formula: None,
        assertions: Items::new(alloc),
        target: Target::Nothing,
        other: 0,
        back: false,
        weights: Items::new(alloc),
    })
}

/// `(HYPOTHESIS WEIGHT)` for each.
fn weights_of(alloc: Global, trees: &[Tree]) -> Result<WeightList, Stop> {
    let mut all = Items::new(alloc);
    'trees: for tree in trees {
        all.push(Weight {
            hypothesis: part(tree.parts(), 0)?.count()?,
            weight: part(tree.parts(), 1)?.number()?,
        })?;
    }
    Ok(all)
}

/// The second number, or 0.
fn other_of(trees: &[Tree]) -> Result<u32, Stop> {
    match trees.get(1) {
        Some(tree) => tree.count(),
        None => Ok(0),
    }
}

/// Adds `(H NUMBER)`, `(P NUMBER)`, `(P NUMBER NUMBER)`, `(X NAME)`, `(F FORMULA)`, `(T TERM ..)`, `(N NAME ..)`, `(W WEIGHT ..)`,
/// `(A ASSERTION)` or `(Back)`.
fn add_argument<L: Ledger>(
    alloc: Global,
    tree: &Tree,
    args: &mut Args,
    steps: &mut Steps<L>,
) -> Result<(), Stop> {
    let trees = tree.parts();
    let own = trees.get(1..).unwrap_or(&[]);
    match part(trees, 0)?.word() {
        "H" => args.target = Target::Hypothesis(part(own, 0)?.count()?),
        "P" => {
            args.target = Target::Part(part(own, 0)?.count()?);
            args.other = other_of(own)?;
        }
        "X" => args.name = part(own, 0)?.name()?,
        "F" => args.formula = Some(formula_of(alloc, part(own, 0)?, DEPTH, steps)?),
        "T" => args.terms = Items::from_vec(terms_of(alloc, own, DEPTH, steps)?),
        "N" => args.names = names_of(alloc, own)?,
        "W" => args.weights = weights_of(alloc, own)?,
        "A" => {
            let assertion = assertion_of(alloc, part(own, 0)?.parts(), steps)?;
            args.assertions.push(assertion)?;
        }
        "Back" => args.back = true,
        _ => return Err(Stop::Unreadable),
    }
    Ok(())
}

pub fn args_of<L: Ledger>(
    alloc: Global,
    trees: &[Tree],
    steps: &mut Steps<L>,
) -> Result<Args, Stop> {
    let mut args = no_args(alloc)?;
    'trees: for tree in trees {
        add_argument(alloc, tree, &mut args, steps)?;
    }
    Ok(args)
}
