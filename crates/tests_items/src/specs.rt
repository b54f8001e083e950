//! Specifications of functions from the rows of the tables.
use floyd_assert_trees::{Funspec, Postcondition, Precondition, TypeList};
use floyd_text::{Name, Steps};
use floyd_tree::Term;
use sqlite_items::Items;
use std::alloc::Global;
use std::sync::ledger::Ledger;
use tests_goals::names_of;
use tests_parts::{binders_of, parts_of, type_of};
use tests_terms::{DEPTH, Stop, Tree, formulas_of, part, term_of, terms_of};

fn types_of<L: Ledger>(
    alloc: Global,
    trees: &[Tree],
    steps: &mut Steps<L>,
) -> Result<TypeList, Stop> {
    let mut all = Items::new(alloc);
    'trees: for tree in trees {
        all.push(type_of(alloc, tree, steps)?)?;
    }
    Ok(all)
}

/// `(FORMULA ..) (TERM ..) (NAME ..) (PART ..)`.
fn pre_of<L: Ledger>(
    alloc: Global,
    trees: &[Tree],
    steps: &mut Steps<L>,
) -> Result<Precondition, Stop> {
    let props = formulas_of(alloc, part(trees, 0)?.parts(), steps)?;
    let params = Items::from_vec(terms_of(alloc, part(trees, 1)?.parts(), DEPTH, steps)?);
    let globals = names_of(alloc, part(trees, 2)?.parts())?;
    let parts = parts_of(alloc, part(trees, 3)?.parts(), steps)?;
    Ok(Precondition {
        props,
        params,
        globals,
        parts,
    })
}

/// `None`, or a term.
fn value_of<L: Ledger>(
    alloc: Global,
    tree: &Tree,
    steps: &mut Steps<L>,
) -> Result<Option<Term>, Stop> {
    if tree.word() == "None" {
        return Ok(None);
    }
    Ok(Some(term_of(alloc, tree, DEPTH, steps)?))
}

/// `(BINDER ..) (FORMULA ..) VALUE (PART ..)`.
fn post_of<L: Ledger>(
    alloc: Global,
    trees: &[Tree],
    steps: &mut Steps<L>,
) -> Result<Postcondition, Stop> {
    let existentials = binders_of(alloc, part(trees, 0)?.parts())?;
    let props = formulas_of(alloc, part(trees, 1)?.parts(), steps)?;
    let value = value_of(alloc, part(trees, 2)?, steps)?;
    let parts = parts_of(alloc, part(trees, 3)?.parts(), steps)?;
    Ok(Postcondition {
        existentials,
        props,
        value,
        parts,
    })
}

/// `None`, or the name of a SPEC.
fn spec_name(tree: &Tree) -> Result<Option<Name>, Stop> {
    if tree.word() == "None" {
        return Ok(None);
    }
    Ok(Some(tree.name()?))
}

/// `NAME (BINDER ..) (TYPE ..) TYPE (PRE) (POST)`.
pub fn funspec_of<L: Ledger>(
    alloc: Global,
    trees: &[Tree],
    steps: &mut Steps<L>,
) -> Result<Funspec, Stop> {
    let name = spec_name(part(trees, 0)?)?;
    let with = binders_of(alloc, part(trees, 1)?.parts())?;
    let params = types_of(alloc, part(trees, 2)?.parts(), steps)?;
    let result = type_of(alloc, part(trees, 3)?, steps)?;
    let pre = pre_of(alloc, part(trees, 4)?.parts(), steps)?;
    let post = post_of(alloc, part(trees, 5)?.parts(), steps)?;
    Ok(Funspec {
        name,
        with,
        params,
        result,
        pre,
        post,
    })
}
