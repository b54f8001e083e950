//! Goals from the rows of a table.
use floyd_assert_trees::{Assertion, Binder, Defs, NameList, SpecTable, Table};
use floyd_clight::{BlockList, Local};
use floyd_ctypes::{CType, StructTable};
use floyd_goal::{Context, Entail, Exit, Exits, Goal, Mark, Pure, Rest, Return, Run};
use floyd_text::{Name, Shared, Steps};
use floyd_tree::{Sort, Term};
use sqlite_items::Items;
use std::alloc::{AllocError, Global};
use std::sync::ledger::Ledger;
use tests_clight::{TYPE_DEPTH, ctype_of, statements_of};
use tests_parts::{assertion_of, binders_of};
use tests_terms::{DEPTH, Stop, Tree, formula_of, formulas_of, part, term_of};

pub fn names_of(alloc: Global, trees: &[Tree]) -> Result<NameList, Stop> {
    let mut all = Items::new(alloc);
    'trees: for tree in trees {
        all.push(tree.name()?)?;
    }
    Ok(all)
}

/// `(Start LEMMA)`, or `(Induction LEMMA PLACE NAME ..)`.
fn mark_of(alloc: Global, tree: &Tree) -> Result<Mark, Stop> {
    let trees = tree.parts();
    let name = part(trees, 1)?.name()?;
    match part(trees, 0)?.word() {
        "Start" => Ok(Mark::Start(name)),
        "Induction" => {
            let place = part(trees, 2)?.count()?;
            let names = names_of(alloc, trees.get(3..).unwrap_or(&[]))?;
            Ok(Mark::Induction(name, place, names))
        }
        _ => Err(Stop::Unreadable),
    }
}

/// The second and the third tree: `(BINDER ..) (FORMULA ..)`.
fn context_of<L: Ledger>(
    alloc: Global,
    trees: &[Tree],
    mark: Mark,
    steps: &mut Steps<L>,
) -> Result<Context, Stop> {
    let variables = Shared::new(alloc, binders_of(alloc, part(trees, 1)?.parts())?)?;
    let hypotheses = Shared::new(alloc, formulas_of(alloc, part(trees, 2)?.parts(), steps)?)?;
    Ok(Context {
        variables,
        hypotheses,
        mark,
    })
}

/// An assertion that says nothing, under an existential where `pending` says so.
fn nothing(alloc: Global, pending: bool) -> Result<Assertion, AllocError> {
    let mut existentials = Items::new(alloc);
    if pending {
        existentials.push(Binder {
            name: Name::from_slice(alloc, b"e")?,
            sort: Sort::Z,
        })?;
    }
    Ok(Assertion {
        existentials,
        props: Items::new(alloc),
        locals: Items::new(alloc),
        parts: Items::new(alloc),
    })
}

/// `((BINDER ..) (FORMULA ..) (LOCAL ..) (PART ..))`, or what says nothing where there is no tree.
fn assertion_at<L: Ledger>(
    alloc: Global,
    trees: &[Tree],
    place: usize,
    pending: bool,
    steps: &mut Steps<L>,
) -> Result<Shared<Assertion>, Stop> {
    let assertion = match trees.get(place) {
        Some(tree) => assertion_of(alloc, tree.parts(), steps)?,
        None => nothing(alloc, pending)?,
    };
    Ok(Shared::new(alloc, assertion)?)
}

/// `None`, `End` or an assertion.
fn exit_of<L: Ledger>(alloc: Global, tree: &Tree, steps: &mut Steps<L>) -> Result<Exit, Stop> {
    match tree.word() {
        "None" => Ok(Exit::None),
        "End" => Ok(Exit::End),
        _ => {
            let assertion = assertion_of(alloc, tree.parts(), steps)?;
            Ok(Exit::To(Shared::new(alloc, assertion)?))
        }
    }
}

/// `None`, or the term of the result.
fn value_of<L: Ledger>(
    alloc: Global,
    tree: &Tree,
    steps: &mut Steps<L>,
) -> Result<Option<Term>, Stop> {
    if tree.word() == "None" {
        return Ok(None);
    }
    Ok(Some(term_of(alloc, tree, DEPTH, steps)?))
}

/// The type of a result, or `void` where there is no tree.
fn result_of(alloc: Global, tree: Option<&Tree>) -> Result<CType, Stop> {
    match tree {
        Some(tree) => ctype_of(alloc, tree, TYPE_DEPTH),
        None => Ok(CType::Void),
    }
}

/// `(NAME TYPE)` for each.
fn blocks_of(alloc: Global, trees: &[Tree]) -> Result<BlockList, Stop> {
    let mut all = Items::new(alloc);
    'trees: for tree in trees {
        let name = part(tree.parts(), 0)?.name()?;
        let ctype = ctype_of(alloc, part(tree.parts(), 1)?, TYPE_DEPTH)?;
        all.push(Local { name, ctype })?;
    }
    Ok(all)
}

/// `POST VALUE`, and the type of the result and the blocks where there are trees for them.
fn return_of<L: Ledger>(
    alloc: Global,
    trees: &[Tree],
    steps: &mut Steps<L>,
) -> Result<Return, Stop> {
    let post = assertion_at(alloc, trees, 0, false, steps)?;
    let value = value_of(alloc, part(trees, 1)?, steps)?;
    let result = result_of(alloc, trees.get(2))?;
    let blocks = Shared::new(alloc, blocks_of(alloc, parts_at(trees, 3))?)?;
    Ok(Return {
        post,
        value,
        result,
        blocks,
    })
}

/// What a function without blocks and without a result must give: nothing.
fn no_return(alloc: Global) -> Result<Return, AllocError> {
    Ok(Return {
        post: Shared::new(alloc, nothing(alloc, false)?)?,
        value: None,
        result: CType::Void,
        blocks: Shared::new(alloc, Items::new(alloc))?,
    })
}

/// `NORMAL BREAK CONTINUE POST VALUE RESULT (BLOCK ..)`, or the end of a function without a result where there are no trees.
/// Without RESULT it is `void`, and without blocks there are none.
fn exits_of<L: Ledger>(
    alloc: Global,
    trees: &[Tree],
    steps: &mut Steps<L>,
) -> Result<Shared<Exits>, Stop> {
    let [normal, brk, cont, _, _, ..] = trees else {
        let exits = Exits {
            normal: Exit::End,
            brk: Exit::None,
            cont: Exit::None,
            ret: no_return(alloc)?,
        };
        return Ok(Shared::new(alloc, exits)?);
    };
    let ret = return_of(alloc, trees.get(3..).unwrap_or(&[]), steps)?;
    let exits = Exits {
        normal: exit_of(alloc, normal, steps)?,
        brk: exit_of(alloc, brk, steps)?,
        cont: exit_of(alloc, cont, steps)?,
        ret,
    };
    Ok(Shared::new(alloc, exits)?)
}

fn entail<L: Ledger>(
    alloc: Global,
    context: Context,
    trees: &[Tree],
    pending: bool,
    steps: &mut Steps<L>,
) -> Result<Goal, Stop> {
    let source = assertion_at(alloc, trees, 3, pending, steps)?;
    let target = assertion_at(alloc, trees, 4, false, steps)?;
    Ok(Goal::Entail(Entail {
        context,
        source,
        target,
    }))
}

/// The trees in the group at that place, or none.
fn parts_at(trees: &[Tree], place: usize) -> &[Tree] {
    match trees.get(place) {
        Some(tree) => tree.parts(),
        None => &[],
    }
}

fn run<L: Ledger>(
    alloc: Global,
    context: Context,
    trees: &[Tree],
    pending: bool,
    steps: &mut Steps<L>,
) -> Result<Goal, Stop> {
    let source = assertion_at(alloc, trees, 3, pending, steps)?;
    let rest = Rest::new(Shared::new(alloc, statements_of(alloc, parts_at(trees, 5))?)?);
    let exits = exits_of(alloc, parts_at(trees, 4), steps)?;
    Ok(Goal::Run(Run {
        context,
        source,
        rest,
        exits,
    }))
}

/// A goal behind that mark.
fn goal_behind<L: Ledger>(
    alloc: Global,
    trees: &[Tree],
    mark: Mark,
    steps: &mut Steps<L>,
) -> Result<Goal, Stop> {
    let context = context_of(alloc, trees, mark, steps)?;
    match part(trees, 0)?.word() {
        "Pure" => {
            let target = formula_of(alloc, part(trees, 3)?, DEPTH, steps)?;
            Ok(Goal::Pure(Pure { context, target }))
        }
        "Run" => run(alloc, context, trees, false, steps),
        "PendingRun" => run(alloc, context, trees, true, steps),
        "Entail" => entail(alloc, context, trees, false, steps),
        "PendingEntail" => entail(alloc, context, trees, true, steps),
        _ => Err(Stop::Unreadable),
    }
}

/// `(Pure (BINDER ..) (FORMULA ..) TARGET)`, `(Run (BINDER ..) (FORMULA ..) SOURCE EXITS (STATEMENT ..))` or
/// `(Entail (BINDER ..) (FORMULA ..) SOURCE TARGET)`. What is not written of the last two says nothing; `PendingRun` and `PendingEntail` are the same where the source has an existential. `(Marked MARK GOAL)` stands in
/// the proof of a lemma.
pub fn goal_of<L: Ledger>(alloc: Global, tree: &Tree, steps: &mut Steps<L>) -> Result<Goal, Stop> {
    let trees = tree.parts();
    if part(trees, 0)?.word() == "Marked" {
        let mark = mark_of(alloc, part(trees, 1)?)?;
        return goal_behind(alloc, part(trees, 2)?.parts(), mark, steps);
    }
    goal_behind(alloc, trees, Mark::Plain, steps)
}

/// No structs, functions, predicates or lemmas.
pub fn no_defs(alloc: Global) -> Defs {
    Defs {
        structs: StructTable::new(alloc),
        globals: Table::new(alloc),
        funs: Table::new(alloc),
        preds: Table::new(alloc),
        lemmas: Table::new(alloc),
        proved: Table::new(alloc),
        home: 0,
    }
}

pub fn no_specs(alloc: Global) -> SpecTable {
    SpecTable {
        functions: Table::new(alloc),
        items: Table::new(alloc),
    }
}
