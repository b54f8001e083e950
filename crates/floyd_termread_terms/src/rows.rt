//! Rows of operands, and operators before an operand, as terms.
ghost use Rattle.std.specs.Prelude.{◌≡◌, [], ◌∷◌, ◌++◌, map, IfOk};
ghost use Rattle.floyd_tree.specs.WellSorted.{sort_of};
ghost use Rattle.floyd_termread_terms.specs.Rows as specs;
ghost use Rattle.floyd_termread_terms.specs.Terms.{link_of};
ghost use Rattle.floyd_termread_wants.specs.Judging.{Judges};
ghost use Rattle.floyd_termread_wants.specs.Making as making;

use floyd_termread_groups::{GroupedLink, Strength};
use floyd_termread_trees::{Infix, Prefix};
use floyd_termread_wants::{JudgeStop, Known, Wanted, list_wanted, place_term};
use floyd_text::Place;
use floyd_tree::{Head, Operator, Sort, Term, sort};
use floyd_tree_sorts::Arguments;
use sqlite_items::Items;
use std::alloc::{AllocError, Global};

/// The operator of terms that stands between operands.
fn operator_of(op: Infix) -> Option<Operator>
    ensures { result ≡ specs.operator_of op }
{
    match op {
        Infix::Cons => Some(Operator::Cons),
        Infix::Append => Some(Operator::Append),
        Infix::Add => Some(Operator::Add),
        Infix::Sub => Some(Operator::Sub),
        Infix::Mul => Some(Operator::Mul),
        _ => None,
    }
}

/// What the left side of an operator is to be, by what is wanted of the whole.
fn left_wanted(alloc: Global, operator: Operator, wanted: &Wanted) -> Result<Wanted, AllocError>
    ensures { IfOk result (λ w. w ≡ specs.left_wanted operator wanted.now) }
{
    let row = operator.row();
    let above = Known::from_above(row.gives, wanted)?;
    match row.takes {
        Arguments::Two(p, _) => Known::nothing().wanted_by(alloc, &above, p),
        _ => Ok(Wanted::Any(None)),
    }
}

/// What its right side is to be, by its left side.
fn right_wanted(alloc: Global, operator: Operator, left: &Term) -> Result<Wanted, AllocError>
    ensures { IfOk result (λ w. w ≡ specs.right_wanted operator (sort_of left.now)) }
{
    match operator.row().takes {
        Arguments::Two(p, q) => {
            let known = Known::nothing().learn(p, sort(left))?;
            known.wanted_by(alloc, &Known::nothing(), q)
        }
        _ => Ok(Wanted::Any(None)),
    }
}

/// An operator and its two sides.
fn place_two(
    alloc: Global,
    wanted: &Wanted,
    place: Place,
    operator: Operator,
    left: Term,
    right: Term,
) -> Result<Term, JudgeStop>
    ensures exact { Judges (λ t. t) result (making.placed wanted.now place (making.two operator left right)) }
{
    let kids = [left, right];
    place_term(alloc, wanted, place, Head::Operator(operator), &kids)
}

fn first_operator(links: &[GroupedLink]) -> Option<Operator>
    ensures { result ≡ specs.first_operator (map link_of links.now) }
{
    match links {
        [] => None,
        [first, ..] => operator_of(first.infix),
    }
}

/// The operator whose left side the first operand of a row of terms is.
fn row_operator(strength: Strength, links: &[GroupedLink]) -> Option<Operator>
    ensures { result ≡ specs.row_operator strength (map link_of links.now) }
{
    match strength {
        Strength::Cons => Some(Operator::Cons),
        Strength::Append | Strength::Sum | Strength::Product => first_operator(links),
        Strength::Implies | Strength::Or | Strength::And | Strength::Relation => None,
    }
}

/// What the first operand of a row of terms is to be.
pub(crate) fn first_wanted(
    alloc: Global,
    strength: Strength,
    links: &[GroupedLink],
    wanted: &Wanted,
) -> Result<Wanted, JudgeStop>
    ensures exact { Judges (λ w. w) result (specs.first_wanted strength (map link_of links.now) wanted.now) }
{
    let Some(operator) = row_operator(strength, links) else {
        return Err(JudgeStop::CutOff);
    };
    Ok(left_wanted(alloc, operator, wanted)?)
}

fn waits(op: Infix) -> bool
    ensures { result ≡ specs.waits op }
{
    matches!(op, Infix::Cons)
}

/// Whether a row ends here.
pub(crate) fn is_end(links: &[GroupedLink]) -> bool
    ensures { result ≡ specs.is_end (map link_of links.now) }
{
    match links {
        [] => true,
        [_, ..] => false,
    }
}

/// What an operand of `::` is to be, behind that one.
fn operand_wanted(alloc: Global, last: bool, left: &Term) -> Result<Wanted, AllocError>
    ensures { IfOk result (λ w. w ≡ specs.operand_wanted last (sort_of left.now)) }
{
    let item = Some(sort(left).share()?);
    if last {
        list_wanted(alloc, &item, &None)
    } else {
        Ok(Wanted::Any(item))
    }
}

fn side_wanted(alloc: Global, operator: Option<Operator>, left: &Term) -> Result<Wanted, AllocError>
    ensures { IfOk result (λ w. w ≡ specs.side_wanted operator (sort_of left.now)) }
{
    match operator {
        Some(operator) => right_wanted(alloc, operator, left),
        None => Ok(Wanted::Any(None)),
    }
}

fn wanted_at_end(last: bool, wanted: &Wanted) -> Result<Wanted, AllocError>
    ensures { IfOk result (λ w. w ≡ specs.wanted_at_end last wanted.now) }
{
    if last {
        wanted.share()
    } else {
        Ok(Wanted::Any(None))
    }
}

/// An operand of a row, with the place where it begins.
pub(crate) struct Operand {
    pub(crate) place: Place,
    pub(crate) term: Term,
}

impl Drop for Operand {
    fn drop(self) {
        let Operand { place: _, term } = self;
        drop(term);
    }
}

impl Operand {
    fn into_term(self) -> Term
        ensures { result ≡ self.term }
    {
        let Operand { place: _, term } = self;
        term
    }
}

/// The operands of a row that were read: those of `::` wait, and what other operators made is one.
pub(crate) struct RowSoFar {
    waiting: Items<Operand>,
    last: Operand,
}

impl Drop for RowSoFar {
    fn drop(self) {
        let RowSoFar { waiting, last } = self;
        drop(waiting);
        drop(last);
    }
}

impl RowSoFar {
    pub(crate) fn new(alloc: Global, place: Place, term: Term) -> RowSoFar
        ensures { result ≡ specs.begun place term }
    {
        RowSoFar {
            waiting: Items::new(alloc),
            last: Operand { place, term },
        }
    }

    /// What the operand behind this operator is to be.
    pub(crate) fn next_wanted(
        &self,
        alloc: Global,
        op: Infix,
        last: bool,
    ) -> Result<Wanted, AllocError>
        ensures { IfOk result (λ w. w ≡ specs.next_wanted op last self.now.last.term) }
    {
        if waits(op) {
            operand_wanted(alloc, last, &self.last.term)
        } else {
            side_wanted(alloc, operator_of(op), &self.last.term)
        }
    }

    fn waiting_more(self, operand: Operand) -> Result<RowSoFar, AllocError>
        ensures { IfOk result (λ r. r ≡ specs.waiting_more self operand) }
    {
        let RowSoFar { mut waiting, last } = self;
        waiting.push(last)?;
        Ok(RowSoFar {
            waiting,
            last: operand,
        })
    }

    fn applied(
        self,
        alloc: Global,
        wanted: &Wanted,
        op: Infix,
        last: bool,
        right: Operand,
    ) -> Result<RowSoFar, JudgeStop>
        ensures exact { Judges (λ r. r) result (specs.applied_left op last wanted.now self right) }
    {
        let Some(operator) = operator_of(op) else {
            return Err(JudgeStop::CutOff);
        };
        let wanted = wanted_at_end(last, wanted)?;
        let RowSoFar {
            waiting,
            last: left,
        } = self;
        let place = left.place;
        let (left, right) = (left.into_term(), right.into_term());
        let term = place_two(alloc, &wanted, place, operator, left, right)?;
        Ok(RowSoFar {
            waiting,
            last: Operand { place, term },
        })
    }

    /// The row with one operator and its operand more.
    pub(crate) fn with(
        self,
        alloc: Global,
        wanted: &Wanted,
        op: Infix,
        last: bool,
        operand: Operand,
    ) -> Result<RowSoFar, JudgeStop>
        ensures exact { Judges (λ r. r) result (specs.with_operand op last wanted.now self operand) }
    {
        if waits(op) {
            Ok(self.waiting_more(operand)?)
        } else {
            self.applied(alloc, wanted, op, last, operand)
        }
    }

    /// The term of the row, where it ends.
    pub(crate) fn joined(self, alloc: Global, wanted: &Wanted) -> Result<Term, JudgeStop>
        ensures exact { Judges (λ t. t) result (specs.joined_right wanted.now (self.waiting ++ self.last ∷ [])) }
    {
        let RowSoFar { mut waiting, last } = self;
        waiting.push(last)?;
        join_right(alloc, wanted, waiting.as_slice())
    }
}

/// The lists of a row of `::`, the last first. The limit on depth bounds their number.
fn join_right(alloc: Global, wanted: &Wanted, operands: &[Operand]) -> Result<Term, JudgeStop>
    ensures exact { Judges (λ t. t) result (specs.joined_right wanted.now operands.now) }
{
    match operands {
        [] => Err(JudgeStop::CutOff),
        [last] => Ok(last.term.share()?),
        [first, more @ ..] => {
            let item = Some(sort(&first.term).share()?);
            let rest = join_right(alloc, &list_wanted(alloc, &item, &None)?, more)?;
            let left = first.term.share()?;
            place_two(alloc, wanted, first.place, Operator::Cons, left, rest)
        }
    }
}

/// `0` less the term.
fn negated(alloc: Global, wanted: &Wanted, prefix: &Prefix, t: Term) -> Result<Term, JudgeStop>
    ensures exact { Judges (λ t. t) result (specs.negated wanted.now prefix.now t) }
{
    match prefix {
        Prefix::Minus(place) => {
            let number = Head::Literal(0);
            let zero = place_term(alloc, &Wanted::Any(None), *place, number, &[])?;
            place_two(alloc, wanted, *place, Operator::Sub, zero, t)
        }
        _ => Err(JudgeStop::CutOff),
    }
}

fn negated_inside(alloc: Global, prefixes: &[Prefix], t: Term) -> Result<Term, JudgeStop>
    ensures exact { Judges (λ t. t) result (specs.negated_inside prefixes.now t) }
{
    let mut t = t;
    'prefixes: for i in (0..prefixes.len()).rev() {
        t = negated(alloc, &Wanted::This(Sort::Z), &prefixes[i], t)?;
    }
    Ok(t)
}

/// A term with a minus before it for each prefix, the last of which binds first.
pub(crate) fn negated_all(
    alloc: Global,
    wanted: &Wanted,
    prefixes: &[Prefix],
    t: Term,
) -> Result<Term, JudgeStop>
    ensures exact { Judges (λ t. t) result (specs.negated_all wanted.now prefixes.now t) }
{
    match prefixes {
        [] => Err(JudgeStop::CutOff),
        [first, more @ ..] => {
            let inner = negated_inside(alloc, more, t)?;
            negated(alloc, wanted, first, inner)
        }
    }
}
