ghost use Rattle.std.specs.Prelude.{◌≡◌, ◌+◌, ◌≤◌, min, Some, None, IfOk, OnOk, OnErr, option_and_then};
ghost use Rattle.floyd_tree.specs.Made.{Gives, fault, faults, made};
ghost use Rattle.floyd_tree.specs.MadeClauses.{measures_of};
ghost use Rattle.floyd_tree.specs.Plain.{At, head_of, kids_of, plains, size, sizes, height, heights};
ghost use Rattle.floyd_tree.specs.Prints.{print, prints_from, summary, summaries_from};
ghost use Rattle.floyd_tree_sorts.specs.Table.{alone, by_row, of_number};
ghost use Rattle.floyd_tree.specs.WellSorted.{sort_of, sorts_of};

use crate::stop::MakeStop;
use floyd_text::Steps;
use floyd_tree_sorts::{
    Head, Row, Sort, all_z, blend, has_arrays, sort0, sort1, sort2, sort3, sorts_match,
};
use sqlite_items::Items;
use std::alloc::{AllocError, Global};
use std::marker::Model;
use std::rc::Rc;
use std::sync::ledger::Ledger;

/// The greatest size of a term or formula.
pub const MAX_SIZE: u32 = 65536;

/// The greatest height of a term or formula; a leaf has height 1.
pub const MAX_HEIGHT: u32 = 256;

/// Terms in order.
pub type TermList = Items<Term>;

/// A term: a tree of shared nodes, which contracts see as a plain tree.
#[cycle(term)]
pub struct Term {
    node: Rc<TermNode>,
}

impl Drop for Term {
    #[cycle(drop)]
    fn drop(self) {
        let Term { node } = self;
        drop(node);
    }
}

#[cycle(term)]
struct TermNode {
    head: Head,
    kids: Items<Term>,
    sort: Sort,
    size: u32,
    height: u32,
    print: u64,
    summary: u64,
}

impl Drop for TermNode {
    #[cycle(drop)]
    fn drop(self) {
        let TermNode {
            head,
            kids,
            sort,
            size: _,
            height: _,
            print: _,
            summary: _,
        } = self;
        drop(head);
        drop(kids);
        drop(sort);
    }
}

impl Model for Term {
    ghost use Rattle.floyd_tree.specs.Plain.{Plain, height};
    ghost use Rattle.floyd_tree.specs.Code.{plain_code};
    ghost use Rattle.floyd_tree_sorts.specs.contracts.heads.Head as h;

    ghost Value = { Plain };

    ghost coded = { plain_code h.the_row.coded };

    ghost use Rattle.floyd_tree.specs.Stored.{plain, IsStored, most_heights};
    ghost use Rattle.std.proofs.Common.{arith};

    ghost view = { λ a. plain a.node.value };

    ghost invariant = { λ a. IsStored a.node.value };

    ghost size = { height };

    ghost size_decreases = { λ a h. omega (arith, most_heights a.node.value.kids) };
}

/// The number of nodes.
pub fn size(t: &Term) -> u32
    ensures value { result ≡ size t.now }
    ensures limit { result ≤ MAX_SIZE }
{
    t.node.size
}

/// The number of nodes on the longest way down.
pub fn height(t: &Term) -> u32
    ensures value { result ≡ height t.now }
    ensures limit { result ≤ MAX_HEIGHT }
{
    t.node.height
}

pub fn sort(t: &Term) -> &Sort
    ensures { sort_of t.now ≡ Some result.now }
{
    &t.node.sort
}

pub fn head(t: &Term) -> &Head
    ensures { result.now ≡ head_of t.now }
{
    &t.node.head
}

pub fn kids(t: &Term) -> &TermList
    ensures value { result.now ≡ kids_of t.now }
    ensures sound { faults (plains result.now) ≡ None }
{
    &t.node.kids
}

impl Term {
    /// Another owner of the same tree.
    pub fn share(&self) -> Result<Term, AllocError>
        ensures value { IfOk result (λ t. t ≡ self.now) }
        ensures sound { fault self.now ≡ None }
    {
        Ok(Term {
            node: self.node.clone()?,
        })
    }

    /// A fingerprint: different ones decide that two trees differ, equal ones decide nothing.
    pub fn print(&self) -> u64
        ensures { result ≡ print self.now }
    {
        self.node.print
    }

    /// The bits of the variables that occur: where a variable's bit is not set, it does not occur.
    pub fn summary(&self) -> u64
        ensures { result ≡ summary self.now }
    {
        self.node.summary
    }
}

/// The term of this head and these kids.
pub fn make<L: Ledger>(
    alloc: Global,
    head: Head,
    kids: &[Term],
    steps: &mut Steps<L>,
) -> Result<Term, MakeStop>
    ensures exact { Gives result (made head kids.now) }
    ensures ok { OnOk result (steps.new ≡ steps.old + 1) }
    ensures err { OnErr result (steps.new ≡ steps.old) }
    ensures at_most { steps.new ≤ steps.old + 1 }
{
    let kids = Items::from_vec(copies(alloc, kids)?);
    assemble(alloc, head, kids, steps)
}

/// The same of kids that are handed over.
pub(crate) fn assemble<L: Ledger>(
    alloc: Global,
    head: Head,
    kids: TermList,
    steps: &mut Steps<L>,
) -> Result<Term, MakeStop>
    ensures exact { Gives result (made head kids) }
    ensures ok { OnOk result (steps.new ≡ steps.old + 1) }
    ensures err { OnErr result (steps.new ≡ steps.old) }
    ensures at_most { steps.new ≤ steps.old + 1 }
{
    let Some(sort) = sort_here(alloc, &head, kids.as_slice())? else {
        return Err(MakeStop::IllSorted);
    };
    let Some((size, height)) = measures(kids.as_slice()) else {
        return Err(MakeStop::TooLarge);
    };
    let print = prints_onto(head.print(), kids.as_slice());
    let summary = summaries_onto(head.summary(), kids.as_slice());
    let node = Rc::new(
        alloc,
        TermNode {
            head,
            kids,
            sort,
            size,
            height,
            print,
            summary,
        },
    )?;
    steps.tick();
    Ok(Term { node })
}

pub(crate) fn copies(alloc: Global, terms: &[Term]) -> Result<Vec<Term>, AllocError>
    ensures { IfOk result (λ v. v.items ≡ terms.now) }
{
    let mut all = Vec::with_capacity(alloc, terms.len())?;
    'terms: for term in terms {
        all.push(term.share()?)?;
    }
    Ok(all)
}

/// The size and the height of a term with these kids, where it is within the limits.
fn measures(kids: &[Term]) -> Option<(u32, u32)>
    ensures { result ≡ measures_of (plains kids.now) }
{
    let (size, height) = bounds(kids);
    if size < MAX_SIZE && height < MAX_HEIGHT {
        Some((size + 1, height + 1))
    } else {
        None
    }
}

/// The size of all the terms, or one more than the limit, and their greatest height.
pub(crate) fn bounds(terms: &[Term]) -> (u32, u32)
    ensures size { result.0 ≡ min (sizes (plains terms.now)) 65537 }
    ensures height { result.1 ≡ heights (plains terms.now) }
    ensures low { result.1 ≤ MAX_HEIGHT }
{
    let mut all: u32 = 0;
    let mut most: u32 = 0;
    'terms: for term in terms {
        all = (all + size(term)).min(MAX_SIZE + 1);
        most = most.max(height(term));
    }
    (all, most)
}

/// A fingerprint with those of the terms.
pub(crate) fn prints_onto(start: u64, terms: &[Term]) -> u64
    ensures { result ≡ prints_from start (plains terms.now) }
{
    let mut print = start;
    'terms: for term in terms {
        print = blend(print, term.print());
    }
    print
}

/// A summary with those of the terms.
pub(crate) fn summaries_onto(start: u64, terms: &[Term]) -> u64
    ensures { result ≡ summaries_from start (plains terms.now) }
{
    let mut summary = start;
    'terms: for term in terms {
        summary |= term.summary();
    }
    summary
}

/// The sort of a term of this head and these kids, where it has one.
fn sort_here(alloc: Global, head: &Head, kids: &[Term]) -> Result<Option<Sort>, AllocError>
    ensures { IfOk result (λ s. s ≡ sort_of (At head.now (plains kids.now))) }
{
    match head {
        Head::Literal(_) => Ok(alone(kids, Sort::Z)),
        Head::Variable(_, sort) => Ok(alone(kids, sort.share()?)),
        Head::Gv(_) => Ok(alone(kids, Sort::Val)),
        Head::Lv(_) => Ok(alone(kids, Sort::Val)),
        Head::Nil(item) => Ok(alone(kids, Sort::list_of(alloc, item.share()?)?)),
        Head::Leaf(item) => Ok(alone(kids, Sort::tree_of(alloc, item.share()?)?)),
        Head::Signed(_) => Ok(of_number(kids)),
        Head::Unsigned(_) => Ok(of_number(kids)),
        Head::Default(shape, sort) => {
            let sorts = sorts(alloc, kids)?;
            if has_arrays(shape.get(), sorts.len()) && all_z(sorts.as_slice()) {
                Ok(Some(sort.share()?))
            } else {
                Ok(None)
            }
        }
        Head::Fun(_, arguments, sort) => {
            let sorts = sorts(alloc, kids)?;
            if sorts_match(arguments.get().as_slice(), sorts.as_slice()) {
                Ok(Some(sort.share()?))
            } else {
                Ok(None)
            }
        }
        Head::Operator(operator) => row_here(alloc, operator.row(), kids),
    }
}

/// The sort of a term without kids.
fn alone(kids: &[Term], sort: Sort) -> Option<Sort>
    ensures { result ≡ option_and_then (alone sort) (sorts_of (plains kids.now)) }
{
    match kids {
        [] => Some(sort),
        _ => None,
    }
}

/// The sort of numbers, of one kid that is a number.
fn of_number(kids: &[Term]) -> Option<Sort>
    ensures { result ≡ option_and_then of_number (sorts_of (plains kids.now)) }
{
    match kids {
        [] => None,
        [a] => if sort(a).is_z() { Some(Sort::Z) } else { None },
        _ => None,
    }
}

/// What an operator of this row gives of these kids.
fn row_here(alloc: Global, row: Row, kids: &[Term]) -> Result<Option<Sort>, AllocError>
    ensures { IfOk result (λ s. s ≡ option_and_then (by_row row) (sorts_of (plains kids.now))) }
{
    match kids {
        [] => sort0(alloc, row),
        [a] => sort1(alloc, row, sort(a)),
        [a, b] => sort2(alloc, row, sort(a), sort(b)),
        [a, b, c] => sort3(alloc, row, sort(a), sort(b), sort(c)),
        _ => Ok(None),
    }
}

/// The sorts of the terms.
pub(crate) fn sorts(alloc: Global, terms: &[Term]) -> Result<Vec<Sort>, AllocError>
    ensures { IfOk result (λ v. sorts_of (plains terms.now) ≡ Some v.items) }
{
    let mut all = Vec::with_capacity(alloc, terms.len())?;
    'terms: for term in terms {
        all.push(sort(term).share()?)?;
    }
    Ok(all)
}
