//! Formulas of the tree of their text.
ghost use Rattle.std.specs.Prelude.{◌≡◌, ◌∷◌, [], map, IfOk, OnOk};
ghost use Rattle.floyd_termread_formulas.specs.Formulas as specs;
ghost use Rattle.floyd_termread_forms.specs.Frames as frames;
ghost use Rattle.floyd_termread_scope.specs.Scopes.{env, sort_of};
ghost use Rattle.floyd_termread_terms.specs.Terms.{sense_of};
ghost use Rattle.floyd_termread_wants.specs.Judging.{Judges};

use crate::words::{Ends, closed, lone, relation_row, word_bracket, word_formula};
use floyd_termread_forms::{Side, bind_all, frames_of, join_sides, put_back_all, wrap};
use floyd_termread_groups::{Grouped, GroupedLink, Strength};
use floyd_termread_scope::{Scope, Variables};
use floyd_termread_terms::first_place;
use floyd_termread_trees::{Opening, Prefix, Word};
use floyd_termread_wants::JudgeStop;
use floyd_text::Place;
use floyd_tree::{Formula, FormulaHead};
use sqlite_items::Items;
use std::alloc::{AllocError, Global};

/// A formula of the tree. The variables that are bound are the same behind it, unless it is refused or memory runs out.
#[cycle(walk)]
pub fn judge_formula(
    alloc: Global,
    scope: &Scope<'_>,
    bound: &mut Variables,
    tree: &Grouped,
) -> Result<Formula, JudgeStop>
    ensures exact { Judges (λ x. x) result ((specs.reading_of tree.now).formula (env scope.now bound.old)) }
    ensures kept { OnOk result (sort_of bound.new ≡ sort_of bound.old) }
{
    match tree {
        Grouped::Word(word, place) => word_formula(alloc, scope, bound, tree, *word, *place),
        Grouped::Bracket {
            opening,
            items,
            close,
            ..
        } => {
            let whole = WholeBracket {
                tree,
                opening,
                close: *close,
            };
            bracket_formula(alloc, scope, bound, whole, items.as_slice())
        }
        Grouped::Prefixed { prefixes, operand } => {
            let whole = WholePrefixed {
                tree,
                prefixes: prefixes.as_slice(),
            };
            prefixed_formula(alloc, scope, bound, whole, operand.get())
        }
        Grouped::Row {
            strength,
            first,
            links,
        } => {
            let whole = WholeRow {
                tree,
                strength: *strength,
            };
            row_formula(alloc, scope, bound, whole, first.get(), links.as_slice())
        }
        Grouped::Missing => Err(JudgeStop::CutOff),
        Grouped::Literal { .. } => lone(alloc, scope, bound, tree),
        Grouped::Name(_) => lone(alloc, scope, bound, tree),
        Grouped::Struct(_, _) => Err(JudgeStop::CutOff),
        Grouped::Field(_, _) => Err(JudgeStop::CutOff),
    }
}

/// A bracket that may be a term.
#[derive(Clone, Copy)]
struct WholeBracket<'a> {
    tree: &'a Grouped,
    opening: &'a Opening,
    close: Option<Place>,
}

#[cycle(walk)]
fn bracket_formula(
    alloc: Global,
    scope: &Scope<'_>,
    bound: &mut Variables,
    whole: WholeBracket<'_>,
    items: &[Grouped],
) -> Result<Formula, JudgeStop>
    ensures exact { Judges (λ x. x) result (specs.bracket_formula whole.entry.opening.now (sense_of whole.entry.tree.now) (map specs.reading_of items.now) whole.entry.close (env scope.now bound.old)) }
    ensures kept { OnOk result (sort_of bound.new ≡ sort_of bound.old) }
{
    match whole.opening {
        Opening::Parenthesis => parenthesised(alloc, scope, bound, whole, items),
        Opening::Word(Word::Formula(word), place) => {
            let ends = Ends {
                place: *place,
                close: whole.close,
            };
            word_bracket(alloc, scope, bound, *word, ends, items)
        }
        _ => lone(alloc, scope, bound, whole.tree),
    }
}

/// A parenthesis. With one item it is that formula.
#[cycle(walk)]
fn parenthesised(
    alloc: Global,
    scope: &Scope<'_>,
    bound: &mut Variables,
    whole: WholeBracket<'_>,
    items: &[Grouped],
) -> Result<Formula, JudgeStop>
    ensures exact { Judges (λ x. x) result (specs.in_parentheses (sense_of whole.entry.tree.now) (map specs.reading_of items.now) whole.entry.close (env scope.now bound.old)) }
    ensures kept { OnOk result (sort_of bound.new ≡ sort_of bound.old) }
{
    match items {
        [inner] => {
            let x = judge_formula(alloc, scope, bound, inner)?;
            closed(whole.close, x)
        }
        _ => lone(alloc, scope, bound, whole.tree),
    }
}

/// An operand with operators before it, which may be a term.
#[derive(Clone, Copy)]
struct WholePrefixed<'a> {
    tree: &'a Grouped,
    prefixes: &'a [Prefix],
}

#[cycle(walk)]
fn prefixed_formula(
    alloc: Global,
    scope: &Scope<'_>,
    bound: &mut Variables,
    whole: WholePrefixed<'_>,
    operand: &Grouped,
) -> Result<Formula, JudgeStop>
    ensures exact { Judges (λ x. x) result (specs.prefixed_formula whole.entry.prefixes.now (sense_of whole.entry.tree.now) (specs.reading_of operand.now).formula (env scope.now bound.old)) }
    ensures kept { OnOk result (sort_of bound.new ≡ sort_of bound.old) }
{
    match whole.prefixes {
        [Prefix::Minus(..), ..] => lone(alloc, scope, bound, whole.tree),
        _ => prefixed(alloc, scope, bound, whole.prefixes, operand),
    }
}

/// A formula with operators before it, which is read among their variables.
#[cycle(walk)]
fn prefixed(
    alloc: Global,
    scope: &Scope<'_>,
    bound: &mut Variables,
    prefixes: &[Prefix],
    operand: &Grouped,
) -> Result<Formula, JudgeStop>
    ensures exact { Judges (λ x. x) result (frames.prefixed prefixes.now (specs.reading_of operand.now).formula (env scope.now bound.old)) }
    ensures kept { OnOk result (sort_of bound.new ≡ sort_of bound.old) }
{
    let frames = frames_of(alloc, prefixes)?;
    let operators = frames.as_slice();
    let hidden = bind_all(alloc, operators, bound)?;
    let x = judge_formula(alloc, scope, bound, operand)?;
    put_back_all(operators, hidden.as_slice(), bound)?;
    wrap(alloc, operators, x)
}

/// The connective of a row that is no term and no relation.
fn connective(strength: Strength) -> Option<FormulaHead>
    ensures { result ≡ specs.connective strength }
{
    match strength {
        Strength::Implies => Some(FormulaHead::Implies),
        Strength::Or => Some(FormulaHead::Or),
        Strength::And => Some(FormulaHead::And),
        _ => None,
    }
}

/// A row that may be a term.
#[derive(Clone, Copy)]
struct WholeRow<'a> {
    tree: &'a Grouped,
    strength: Strength,
}

#[cycle(walk)]
fn row_formula(
    alloc: Global,
    scope: &Scope<'_>,
    bound: &mut Variables,
    whole: WholeRow<'_>,
    first: &Grouped,
    links: &[GroupedLink],
) -> Result<Formula, JudgeStop>
    ensures exact { Judges (λ x. x) result (specs.row_formula whole.entry.strength (sense_of whole.entry.tree.now) (specs.reading_of first.now) (map specs.link_reading links.now) (env scope.now bound.old)) }
    ensures kept { OnOk result (sort_of bound.new ≡ sort_of bound.old) }
{
    if matches!(whole.strength, Strength::Relation) {
        return relation_row(alloc, scope, bound, first, links);
    }
    match connective(whole.strength) {
        Some(head) => connective_row(alloc, scope, bound, &head, first, links),
        None => lone(alloc, scope, bound, whole.tree),
    }
}

fn one_side(alloc: Global, place: Place, formula: Formula) -> Result<Items<Side>, AllocError>
    ensures { IfOk result (λ ss. ss ≡ record { place = place; formula = formula } ∷ []) }
{
    let mut sides = Items::new(alloc);
    sides.push(Side { place, formula })?;
    Ok(sides)
}

/// Formulas with one connective between them.
#[cycle(walk)]
fn connective_row(
    alloc: Global,
    scope: &Scope<'_>,
    bound: &mut Variables,
    head: &FormulaHead,
    first: &Grouped,
    links: &[GroupedLink],
) -> Result<Formula, JudgeStop>
    ensures exact { Judges (λ x. x) result (specs.joined head.now (env scope.now bound.old) (specs.reading_of first.now) (map specs.link_reading links.now)) }
    ensures kept { OnOk result (sort_of bound.new ≡ sort_of bound.old) }
{
    let formula = judge_formula(alloc, scope, bound, first)?;
    let place = first_place(first);
    let mut sides = one_side(alloc, place, formula)?;
    let mut rest = links;
    'links: while let Some((link, behind)) = rest.split_first() {
        let formula = judge_formula(alloc, scope, bound, &link.operand)?;
        let place = first_place(&link.operand);
        sides.push(Side { place, formula })?;
        rest = behind;
    }
    join_sides(alloc, head, sides.as_slice())
}
