use floyd_assert::{Assertion, Binder, BinderList, Local, LocalList, Region, Sep, SepList};
use floyd_text::{Shared, Steps};
use floyd_tree::{AType, Path, PathStep, has_arrays};
use sqlite_items::Items;
use std::alloc::Global;
use std::sync::ledger::Ledger;
use tests_terms::{DEPTH, Stop, Tree, formulas_of, part, shape_of, sort_of, term_of, terms_of};

/// `(SHAPE SIZE ..)`, with a size for each array.
pub fn type_of<L: Ledger>(alloc: Global, tree: &Tree, steps: &mut Steps<L>) -> Result<AType, Stop> {
    let shape = shape_of(alloc, part(tree.parts(), 0)?)?;
    let sizes = terms_of(alloc, tree.parts().get(1..).unwrap_or(&[]), DEPTH, steps)?;
    if !has_arrays(&shape, sizes.len()) {
        return Err(Stop::Unreadable);
    }
    let shape = Shared::new(alloc, shape)?;
    Ok(AType::new(shape, Items::from_vec(sizes)))
}

/// `.name` for a field, or the term of a subscript.
fn step_of<L: Ledger>(alloc: Global, tree: &Tree, steps: &mut Steps<L>) -> Result<PathStep, Stop> {
    if tree.word().starts_with('.') {
        return Ok(PathStep::Field(tree.name()?));
    }
    Ok(PathStep::Subscript(term_of(alloc, tree, DEPTH, steps)?))
}

/// A step for each tree.
pub fn path_of<L: Ledger>(
    alloc: Global,
    trees: &[Tree],
    steps: &mut Steps<L>,
) -> Result<Path, Stop> {
    let mut path = Path::new(alloc);
    'trees: for tree in trees {
        path.push(step_of(alloc, tree, steps)?)?;
    }
    Ok(path)
}

/// `SHARE TYPE (STEP ..) ROOT`.
fn region_of<L: Ledger>(
    alloc: Global,
    trees: &[Tree],
    steps: &mut Steps<L>,
) -> Result<Region, Stop> {
    let share = term_of(alloc, part(trees, 0)?, DEPTH, steps)?;
    let ty = type_of(alloc, part(trees, 1)?, steps)?;
    let path = path_of(alloc, part(trees, 2)?.parts(), steps)?;
    let root = term_of(alloc, part(trees, 3)?, DEPTH, steps)?;
    Ok(Region {
        share,
        ty,
        path,
        root,
    })
}

/// `Anything`, `(FieldAt REGION VALUE)`, `(Padding REGION)`, `(Valid ADDRESS)` or `(Predicate NAME TERM ..)`.
pub fn part_of<L: Ledger>(alloc: Global, tree: &Tree, steps: &mut Steps<L>) -> Result<Sep, Stop> {
    if tree.word() == "Anything" {
        return Ok(Sep::Anything);
    }
    let own = tree.parts().get(1..).unwrap_or(&[]);
    match part(tree.parts(), 0)?.word() {
        "FieldAt" => {
            let region = region_of(alloc, own, steps)?;
            let value = term_of(alloc, part(own, 4)?, DEPTH, steps)?;
            Ok(Sep::FieldAt(region, value))
        }
        "Padding" => Ok(Sep::Padding(region_of(alloc, own, steps)?)),
        "Valid" => Ok(Sep::Valid(term_of(alloc, part(own, 0)?, DEPTH, steps)?)),
        "Predicate" => {
            let name = part(own, 0)?.name()?;
            let terms = terms_of(alloc, own.get(1..).unwrap_or(&[]), DEPTH, steps)?;
            Ok(Sep::Predicate(name, Items::from_vec(terms)))
        }
        _ => Err(Stop::Unreadable),
    }
}

/// The part of each tree.
pub fn parts_of<L: Ledger>(
    alloc: Global,
    trees: &[Tree],
    steps: &mut Steps<L>,
) -> Result<SepList, Stop> {
    let mut all = Items::new(alloc);
    'trees: for tree in trees {
        all.push(part_of(alloc, tree, steps)?)?;
    }
    Ok(all)
}

/// `(NAME SORT)` for each.
pub fn binders_of(alloc: Global, trees: &[Tree]) -> Result<BinderList, Stop> {
    let mut all = Items::new(alloc);
    'trees: for tree in trees {
        let name = part(tree.parts(), 0)?.name()?;
        let sort = sort_of(alloc, part(tree.parts(), 1)?)?;
        all.push(Binder { name, sort })?;
    }
    Ok(all)
}

/// `(NAME TERM)` for each.
fn locals_of<L: Ledger>(
    alloc: Global,
    trees: &[Tree],
    steps: &mut Steps<L>,
) -> Result<LocalList, Stop> {
    let mut all = Items::new(alloc);
    'trees: for tree in trees {
        let name = part(tree.parts(), 0)?.name()?;
        let term = term_of(alloc, part(tree.parts(), 1)?, DEPTH, steps)?;
        all.push(Local { name, term })?;
    }
    Ok(all)
}

/// `(BINDER ..) (FORMULA ..) (LOCAL ..) (PART ..)`.
pub fn assertion_of<L: Ledger>(
    alloc: Global,
    trees: &[Tree],
    steps: &mut Steps<L>,
) -> Result<Assertion, Stop> {
    let existentials = binders_of(alloc, part(trees, 0)?.parts())?;
    let props = formulas_of(alloc, part(trees, 1)?.parts(), steps)?;
    let locals = locals_of(alloc, part(trees, 2)?.parts(), steps)?;
    let parts = parts_of(alloc, part(trees, 3)?.parts(), steps)?;
    Ok(Assertion {
        existentials,
        props,
        locals,
        parts,
    })
}
