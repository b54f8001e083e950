//! Terms and types of the tree of their text.
ghost use Rattle.std.specs.Prelude.{◌≡◌, map};
ghost use Rattle.floyd_termread_scope.specs.Scopes.{env};
ghost use Rattle.floyd_termread_terms.specs.Brackets as brackets;
ghost use Rattle.floyd_termread_terms.specs.Rows as rows;
ghost use Rattle.floyd_termread_terms.specs.Terms.{link_of, sense_of};
ghost use Rattle.floyd_termread_wants.specs.Judging.{Judges};
ghost use Rattle.floyd_termread_wants.specs.Wants.{nothing_known};

use crate::places::{first_place, name_of};
use crate::rows::{Operand, RowSoFar, first_wanted, is_end, negated_all};
use floyd_termread_brackets::{
    Edges, Goal, Part, Slots, closed_term, closed_type, global_part, literal_term, local_part,
    scalar_type, slots_of, struct_type, type_slots, value_type, variable, word_term, word_type,
};
use floyd_termread_groups::{Grouped, GroupedLink, Strength};
use floyd_termread_scope::{Scope, Variables};
use floyd_termread_wants::{JudgeStop, Known, Wanted};
use floyd_tree::{AType, Sort, Term};
use sqlite_items::Items;
use std::alloc::Global;

/// A term of the tree, where so much is wanted.
#[cycle(walk)]
pub fn judge_term(
    alloc: Global,
    scope: &Scope<'_>,
    bound: &Variables,
    tree: &Grouped,
    wanted: &Wanted,
) -> Result<Term, JudgeStop>
    ensures exact { Judges (λ t. t) result ((sense_of tree.now).term (env scope.now bound.now) wanted.now) }
{
    match tree {
        Grouped::Missing => Err(JudgeStop::CutOff),
        Grouped::Struct(_, _) => Err(JudgeStop::CutOff),
        Grouped::Field(_, _) => Err(JudgeStop::CutOff),
        Grouped::Literal {
            minus,
            value,
            place,
        } => literal_term(alloc, wanted, *minus, *value, *place),
        Grouped::Name(i) => variable(alloc, scope, bound, wanted, i),
        Grouped::Word(word, place) => word_term(alloc, wanted, *word, *place),
        Grouped::Bracket {
            opening,
            place,
            items,
            close,
        } => {
            let edges = Edges {
                opening,
                place: *place,
                close: *close,
            };
            bracket(alloc, scope, bound, items.as_slice(), edges, wanted)
        }
        Grouped::Prefixed { prefixes, operand } => {
            let t = judge_term(alloc, scope, bound, operand.get(), &Wanted::This(Sort::Z))?;
            negated_all(alloc, wanted, prefixes.as_slice(), t)
        }
        Grouped::Row {
            strength,
            first,
            links,
        } => row(
            alloc,
            scope,
            bound,
            first.get(),
            links.as_slice(),
            RowWanted {
                strength: *strength,
                wanted,
            },
        ),
    }
}

/// A bracket, as a term.
#[cycle(walk)]
fn bracket(
    alloc: Global,
    scope: &Scope<'_>,
    bound: &Variables,
    items: &[Grouped],
    edges: Edges<'_>,
    wanted: &Wanted,
) -> Result<Term, JudgeStop>
    ensures exact { Judges (λ t. t) result (brackets.bracket_term edges.entry.opening.now edges.entry.place (map sense_of items.now) edges.entry.close (env scope.now bound.now) wanted.now) }
{
    let slots = slots_of(alloc, scope, edges.opening, items.len(), wanted)?;
    let parts = parts(alloc, scope, bound, items, &slots)?;
    closed_term(alloc, scope, wanted, edges, parts.as_slice())
}

/// The items of a bracket in turn.
#[cycle(walk)]
fn parts(
    alloc: Global,
    scope: &Scope<'_>,
    bound: &Variables,
    items: &[Grouped],
    slots: &Slots,
) -> Result<Items<Part>, JudgeStop>
    ensures exact { Judges (λ ps. ps) result (brackets.parts_of (env scope.now bound.now) slots.now 0 nothing_known (map sense_of items.now)) }
{
    let mut all = Items::new(alloc);
    let mut known = Known::nothing();
    let mut rest = items;
    'items: while let Some((item, behind)) = rest.split_first() {
        let number = all.len();
        let goal = slots.goal_at(alloc, number, &known)?;
        let part = judge_part(alloc, scope, bound, item, &goal)?;
        known = slots.at(number).learn(known, &part)?;
        all.push(part)?;
        rest = behind;
    }
    Ok(all)
}

/// An item of a bracket, judged as what it is to be.
#[cycle(walk)]
pub fn judge_part(
    alloc: Global,
    scope: &Scope<'_>,
    bound: &Variables,
    tree: &Grouped,
    goal: &Goal,
) -> Result<Part, JudgeStop>
    ensures exact { Judges (λ p. p) result (brackets.part_of (env scope.now bound.now) goal.now (sense_of tree.now)) }
{
    match goal {
        Goal::Term(wanted) => Ok(Part::Term(judge_term(alloc, scope, bound, tree, wanted)?)),
        Goal::Type => Ok(Part::Type(judge_type(alloc, scope, bound, tree)?)),
        Goal::ValueType => {
            let t = judge_type(alloc, scope, bound, tree)?;
            value_type(alloc, scope, first_place(tree), t)
        }
        Goal::ScalarType => {
            let t = judge_type(alloc, scope, bound, tree)?;
            scalar_type(first_place(tree), t)
        }
        Goal::Global => global_part(scope, name_of(tree)),
        Goal::Local => local_part(scope, name_of(tree)),
    }
}

/// A type of the tree.
#[cycle(walk)]
pub fn judge_type(
    alloc: Global,
    scope: &Scope<'_>,
    bound: &Variables,
    tree: &Grouped,
) -> Result<AType, JudgeStop>
    ensures exact { Judges (λ t. t) result ((sense_of tree.now).type (env scope.now bound.now)) }
{
    match tree {
        Grouped::Word(word, _) => word_type(alloc, *word),
        Grouped::Struct(_, tag) => Ok(struct_type(alloc, tag)?),
        Grouped::Bracket {
            opening,
            items,
            close,
            ..
        } => {
            let slots = type_slots(alloc, opening)?;
            let parts = parts(alloc, scope, bound, items.as_slice(), &slots)?;
            let given = parts.as_slice();
            closed_type(alloc, opening, given, *close)
        }
        Grouped::Missing => Err(JudgeStop::CutOff),
        Grouped::Literal { .. } => Err(JudgeStop::CutOff),
        Grouped::Name(_) => Err(JudgeStop::CutOff),
        Grouped::Field(_, _) => Err(JudgeStop::CutOff),
        Grouped::Prefixed { .. } => Err(JudgeStop::CutOff),
        Grouped::Row { .. } => Err(JudgeStop::CutOff),
    }
}

/// How strong the operators of a row are, and what is wanted of the row.
#[derive(Clone, Copy)]
struct RowWanted<'a> {
    strength: Strength,
    wanted: &'a Wanted,
}

/// A row of operands, as a term.
#[cycle(walk)]
fn row(
    alloc: Global,
    scope: &Scope<'_>,
    bound: &Variables,
    first: &Grouped,
    links: &[GroupedLink],
    row: RowWanted<'_>,
) -> Result<Term, JudgeStop>
    ensures exact { Judges (λ t. t) result (rows.row_term row.entry.strength (sense_of first.now) (map link_of links.now) (env scope.now bound.now) row.entry.wanted.now) }
{
    let left_side = first_wanted(alloc, row.strength, links, row.wanted)?;
    let t = judge_term(alloc, scope, bound, first, &left_side)?;
    let so_far = RowSoFar::new(alloc, first_place(first), t);
    rest_of_row(alloc, scope, bound, links, so_far, row.wanted)
}

/// What a row is, of which so much was read.
#[cycle(walk)]
fn rest_of_row(
    alloc: Global,
    scope: &Scope<'_>,
    bound: &Variables,
    links: &[GroupedLink],
    so_far: RowSoFar,
    wanted: &Wanted,
) -> Result<Term, JudgeStop>
    ensures exact { Judges (λ t. t) result (rows.row_from (env scope.now bound.now) wanted.now so_far (map link_of links.now)) }
{
    let mut row = so_far;
    let mut rest = links;
    'links: while let Some((link, behind)) = rest.split_first() {
        let last = is_end(behind);
        let side = row.next_wanted(alloc, link.infix, last)?;
        let term = judge_term(alloc, scope, bound, &link.operand, &side)?;
        let place = first_place(&link.operand);
        row = row.with(alloc, wanted, link.infix, last, Operand { place, term })?;
        rest = behind;
    }
    row.joined(alloc, wanted)
}
