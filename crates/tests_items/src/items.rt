//! Items from the rows of the tables.
use floyd_assert_trees::{
    Defs, Fun, FunBody, FunCase, FunCaseList, Lemma, Pattern, PlaceList, Pred, PredBody, PredCase,
    PredCaseList, Table,
};
use floyd_text::{Name, Place, Steps};
use sqlite_items::Items;
use std::alloc::Global;
use std::sync::ledger::Ledger;
use tests_parts::{assertion_of, binders_of};
use tests_terms::{DEPTH, Stop, Tree, part, sort_of, term_of};

/// `(FILE LINE COLUMN)`.
pub fn place_of(tree: &Tree) -> Result<Place, Stop> {
    let trees = tree.parts();
    Ok(Place {
        file: part(trees, 0)?.count()?,
        line: part(trees, 1)?.count()?,
        column: part(trees, 2)?.count()?,
    })
}

fn places_of(alloc: Global, trees: &[Tree]) -> Result<PlaceList, Stop> {
    let mut all = Items::new(alloc);
    'trees: for tree in trees {
        all.push(place_of(tree)?)?;
    }
    Ok(all)
}

/// `nil`, `(cons ITEM REST)`, `leaf` or `(node LEFT ITEM RIGHT)`.
fn pattern_of(tree: &Tree) -> Result<Pattern, Stop> {
    let trees = tree.parts();
    match (tree.word(), trees.len()) {
        ("nil", _) => Ok(Pattern::Nil),
        ("leaf", _) => Ok(Pattern::Leaf),
        (_, 3) => Ok(Pattern::Cons(part(trees, 1)?.name()?, part(trees, 2)?.name()?)),
        (_, 4) => {
            let left = part(trees, 1)?.name()?;
            let item = part(trees, 2)?.name()?;
            Ok(Pattern::Node(left, item, part(trees, 3)?.name()?))
        }
        _ => Err(Stop::Unreadable),
    }
}

/// `(PATTERN TERM)` for each.
fn fun_cases_of<L: Ledger>(
    alloc: Global,
    trees: &[Tree],
    steps: &mut Steps<L>,
) -> Result<FunCaseList, Stop> {
    let mut all = Items::new(alloc);
    'trees: for tree in trees {
        let pattern = pattern_of(part(tree.parts(), 0)?)?;
        let term = term_of(alloc, part(tree.parts(), 1)?, DEPTH, steps)?;
        all.push(FunCase { pattern, term })?;
    }
    Ok(all)
}

/// `(whole TERM)` or `(cases CASE ..)`.
fn fun_body_of<L: Ledger>(
    alloc: Global,
    trees: &[Tree],
    steps: &mut Steps<L>,
) -> Result<FunBody, Stop> {
    if part(trees, 0)?.word() == "whole" {
        return Ok(FunBody::Whole(term_of(alloc, part(trees, 1)?, DEPTH, steps)?));
    }
    let cases = fun_cases_of(alloc, trees.get(1..).unwrap_or(&[]), steps)?;
    Ok(FunBody::Cases(cases))
}

/// `(PATTERN ASSERTION)` for each.
fn pred_cases_of<L: Ledger>(
    alloc: Global,
    trees: &[Tree],
    steps: &mut Steps<L>,
) -> Result<PredCaseList, Stop> {
    let mut all = Items::new(alloc);
    'trees: for tree in trees {
        let pattern = pattern_of(part(tree.parts(), 0)?)?;
        let body = assertion_of(alloc, part(tree.parts(), 1)?.parts(), steps)?;
        all.push(PredCase { pattern, body })?;
    }
    Ok(all)
}

/// `(whole ASSERTION)` or `(cases CASE ..)`.
fn pred_body_of<L: Ledger>(
    alloc: Global,
    trees: &[Tree],
    steps: &mut Steps<L>,
) -> Result<PredBody, Stop> {
    if part(trees, 0)?.word() == "whole" {
        let body = assertion_of(alloc, part(trees, 1)?.parts(), steps)?;
        return Ok(PredBody::Whole(body));
    }
    let cases = pred_cases_of(alloc, trees.get(1..).unwrap_or(&[]), steps)?;
    Ok(PredBody::Cases(cases))
}

/// Adds to a table in which the name is not there.
fn add<T: Drop>(table: &mut Table<T>, name: Name, item: T) -> Result<(), Stop> {
    if table.get(&name).is_some() {
        return Err(Stop::Unreadable);
    }
    table.add(name, item)?;
    Ok(())
}

/// `NAME PLACE (BINDER ..) SORT BODY (PLACE ..)`, with the places of its calls of itself last.
pub fn add_fun<L: Ledger>(
    alloc: Global,
    defs: &mut Defs,
    trees: &[Tree],
    steps: &mut Steps<L>,
) -> Result<(), Stop> {
    let fun = Fun {
        place: place_of(part(trees, 1)?)?,
        module: 0,
        arguments: binders_of(alloc, part(trees, 2)?.parts())?,
        result: sort_of(alloc, part(trees, 3)?)?,
        body: fun_body_of(alloc, part(trees, 4)?.parts(), steps)?,
        calls: places_of(alloc, part(trees, 5)?.parts())?,
    };
    add(&mut defs.funs, part(trees, 0)?.name()?, fun)
}

/// `NAME PLACE (BINDER ..) BODY (PLACE ..)`.
pub fn add_pred<L: Ledger>(
    alloc: Global,
    defs: &mut Defs,
    trees: &[Tree],
    steps: &mut Steps<L>,
) -> Result<(), Stop> {
    let pred = Pred {
        place: place_of(part(trees, 1)?)?,
        module: 0,
        opaque: false,
        arguments: binders_of(alloc, part(trees, 2)?.parts())?,
        body: pred_body_of(alloc, part(trees, 3)?.parts(), steps)?,
        calls: places_of(alloc, part(trees, 4)?.parts())?,
    };
    add(&mut defs.preds, part(trees, 0)?.name()?, pred)
}

/// `NAME PLACE (BINDER ..) ASSERTION ASSERTION`.
pub fn add_lemma<L: Ledger>(
    alloc: Global,
    defs: &mut Defs,
    trees: &[Tree],
    steps: &mut Steps<L>,
) -> Result<(), Stop> {
    let lemma = Lemma {
        place: place_of(part(trees, 1)?)?,
        module: 0,
        with: binders_of(alloc, part(trees, 2)?.parts())?,
        left: assertion_of(alloc, part(trees, 3)?.parts(), steps)?,
        right: assertion_of(alloc, part(trees, 4)?.parts(), steps)?,
    };
    add(&mut defs.lemmas, part(trees, 0)?.name()?, lemma)
}
