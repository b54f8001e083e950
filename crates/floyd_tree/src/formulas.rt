ghost use Rattle.std.specs.Prelude.{◌≡◌, ◌+◌, ◌≤◌, true, min, None, IfOk, OnOk, OnErr};
ghost use Rattle.floyd_tree.specs.FormulaPrints.{formula_print, formula_prints_from, formula_summary, formula_summaries_from};
ghost use Rattle.floyd_tree.specs.Formulas.{all_well_sorted, form_of, formula_height, formula_heights, formula_size, formula_sizes, formulas, formulas_of, takes_all, terms_of, well_sorted};
ghost use Rattle.floyd_tree.specs.Made.{Gives};
ghost use Rattle.floyd_tree.specs.MadeFormulas.{formula_fault, made_formula};
ghost use Rattle.floyd_tree.specs.MadeFormulasClauses.{formula_measures_of};
ghost use Rattle.floyd_tree.specs.Plain.{plains};
ghost use Rattle.floyd_tree.specs.WellSorted.{sorts_of};

use crate::stop::MakeStop;
use crate::term::{
    MAX_HEIGHT, MAX_SIZE, Term, TermList, bounds, copies, prints_onto, sorts, summaries_onto,
};
use floyd_text::Steps;
use floyd_tree_sorts::{FormulaHead, blend, takes};
use sqlite_items::Items;
use std::alloc::{AllocError, Global};
use std::marker::Model;
use std::rc::Rc;
use std::sync::ledger::Ledger;

/// Formulas in order.
pub type FormulaList = Items<Formula>;

/// A formula: a tree of shared nodes over terms, which contracts see as a plain tree.
#[cycle(formula)]
pub struct Formula {
    node: Rc<FormulaNode>,
}

impl Drop for Formula {
    #[cycle(drop_formula)]
    fn drop(self) {
        let Formula { node } = self;
        drop(node);
    }
}

#[cycle(formula)]
struct FormulaNode {
    head: FormulaHead,
    terms: TermList,
    kids: Items<Formula>,
    size: u32,
    height: u32,
    print: u64,
    summary: u64,
}

impl Drop for FormulaNode {
    #[cycle(drop_formula)]
    fn drop(self) {
        let FormulaNode {
            head,
            terms,
            kids,
            size: _,
            height: _,
            print: _,
            summary: _,
        } = self;
        drop(head);
        drop(terms);
        drop(kids);
    }
}

impl Model for Formula {
    ghost use Rattle.floyd_tree.specs.Formulas.{PlainFormula, formula_height};
    ghost use Rattle.floyd_tree.specs.Code.{plain_code};
    ghost use Rattle.floyd_tree.specs.FormulaCode.{formula_code};
    ghost use Rattle.floyd_tree_sorts.specs.contracts.connectives.FormulaHead as h;
    ghost use Rattle.floyd_tree_sorts.specs.contracts.heads.Head as t;

    ghost Value = { PlainFormula };

    ghost coded = { formula_code h.the_row.coded (plain_code t.the_row.coded) };

    ghost use Rattle.floyd_tree.specs.FormulaStored.{plain_formula, IsFormulaStored, most_formula_heights};
    ghost use Rattle.std.proofs.Common.{arith};

    ghost view = { λ a. plain_formula a.node.value };

    ghost invariant = { λ a. IsFormulaStored a.node.value };

    ghost size = { formula_height };

    ghost size_decreases = { λ a h. omega (arith, most_formula_heights a.node.value.kids) };
}

pub fn formula_head(f: &Formula) -> &FormulaHead
    ensures { result.now ≡ form_of f.now }
{
    &f.node.head
}

pub fn formula_terms(f: &Formula) -> &TermList
    ensures { result.now ≡ terms_of f.now }
{
    &f.node.terms
}

pub fn formula_kids(f: &Formula) -> &FormulaList
    ensures { result.now ≡ formulas_of f.now }
{
    &f.node.kids
}

/// The number of nodes, those of terms among them.
pub fn formula_size(f: &Formula) -> u32
    ensures value { result ≡ formula_size f.now }
    ensures limit { result ≤ MAX_SIZE }
    ensures sorted { well_sorted f.now ≡ true }
{
    f.node.size
}

impl Formula {
    /// Another owner of the same tree.
    pub fn share(&self) -> Result<Formula, AllocError>
        ensures value { IfOk result (λ f. f ≡ self.now) }
        ensures sound { formula_fault self.now ≡ None }
    {
        Ok(Formula {
            node: self.node.clone()?,
        })
    }

    /// The number of nodes on the longest way down.
    pub fn height(&self) -> u32
        ensures value { result ≡ formula_height self.now }
        ensures limit { result ≤ MAX_HEIGHT }
    {
        self.node.height
    }

    /// A fingerprint: different ones decide that two trees differ, equal ones decide nothing.
    pub fn print(&self) -> u64
        ensures { result ≡ formula_print self.now }
    {
        self.node.print
    }

    /// The bits of the variables that occur, bound ones among them: where a variable's bit is not set, it is not free.
    pub fn summary(&self) -> u64
        ensures { result ≡ formula_summary self.now }
    {
        self.node.summary
    }
}

/// The formula of this head, these terms and these kids.
pub fn make_formula<L: Ledger>(
    alloc: Global,
    head: FormulaHead,
    terms: &[Term],
    kids: &[Formula],
    steps: &mut Steps<L>,
) -> Result<Formula, MakeStop>
    ensures exact { Gives result (made_formula head terms.now kids.now) }
    ensures ok { OnOk result (steps.new ≡ steps.old + 1) }
    ensures err { OnErr result (steps.new ≡ steps.old) }
    ensures at_most { steps.new ≤ steps.old + 1 }
{
    let terms = Items::from_vec(copies(alloc, terms)?);
    let kids = Items::from_vec(formula_copies(alloc, kids)?);
    assemble(alloc, head, terms, kids, steps)
}

/// The same of terms and kids that are handed over.
#[tactic(auto, using(crate::proofs::FormulaLemmas::well_sorted_is))]
fn assemble<L: Ledger>(
    alloc: Global,
    head: FormulaHead,
    terms: TermList,
    kids: FormulaList,
    steps: &mut Steps<L>,
) -> Result<Formula, MakeStop>
    ensures exact { Gives result (made_formula head terms kids) }
    ensures ok { OnOk result (steps.new ≡ steps.old + 1) }
    ensures err { OnErr result (steps.new ≡ steps.old) }
    ensures at_most { steps.new ≤ steps.old + 1 }
{
    if !takes_here(alloc, &head, terms.as_slice(), kids.len())? {
        return Err(MakeStop::IllSorted);
    }
    let Some((size, height)) = measures(terms.as_slice(), kids.as_slice()) else {
        return Err(MakeStop::TooLarge);
    };
    let print = prints(prints_onto(head.print(), terms.as_slice()), kids.as_slice());
    let summary = summaries(summaries_onto(0, terms.as_slice()), kids.as_slice());
    let node = Rc::new(
        alloc,
        FormulaNode {
            head,
            terms,
            kids,
            size,
            height,
            print,
            summary,
        },
    )?;
    steps.tick();
    Ok(Formula { node })
}

fn formula_copies(alloc: Global, formulas: &[Formula]) -> Result<Vec<Formula>, AllocError>
    ensures { IfOk result (λ v. v.items ≡ formulas.now) }
{
    let mut all = Vec::with_capacity(alloc, formulas.len())?;
    'formulas: for formula in formulas {
        all.push(formula.share()?)?;
    }
    Ok(all)
}

/// Whether the head takes these terms and this number of formulas.
fn takes_here(
    alloc: Global,
    head: &FormulaHead,
    terms: &[Term],
    count: usize,
) -> Result<bool, AllocError>
    ensures { IfOk result (λ yes. yes ≡ takes_all head.now (sorts_of (plains terms.now)) count) }
{
    let sorts = sorts(alloc, terms)?;
    Ok(takes(head, sorts.as_slice(), count))
}

/// The size and the height of a formula with these terms and kids, where it is within the limits.
fn measures(terms: &[Term], kids: &[Formula]) -> Option<(u32, u32)>
    ensures value { result ≡ formula_measures_of (plains terms.now) (formulas kids.now) }
    ensures sorted { all_well_sorted (formulas kids.now) ≡ true }
{
    let (terms_size, terms_height) = bounds(terms);
    let (kids_size, kids_height) = formula_bounds(kids);
    if terms_size + kids_size < MAX_SIZE && terms_height.max(kids_height) < MAX_HEIGHT {
        Some((
            terms_size + kids_size + 1,
            terms_height.max(kids_height) + 1,
        ))
    } else {
        None
    }
}

/// The size of all the formulas, or one more than the limit, and their greatest height.
fn formula_bounds(kids: &[Formula]) -> (u32, u32)
    ensures size { result.0 ≡ min (formula_sizes (formulas kids.now)) 65537 }
    ensures height { result.1 ≡ formula_heights (formulas kids.now) }
    ensures low { result.1 ≤ MAX_HEIGHT }
    ensures sorted { all_well_sorted (formulas kids.now) ≡ true }
{
    let mut all: u32 = 0;
    let mut most: u32 = 0;
    'kids: for kid in kids {
        all = (all + formula_size(kid)).min(MAX_SIZE + 1);
        most = most.max(kid.height());
    }
    (all, most)
}

/// A fingerprint with those of the formulas.
fn prints(start: u64, kids: &[Formula]) -> u64
    ensures { result ≡ formula_prints_from start (formulas kids.now) }
{
    let mut print = start;
    'kids: for kid in kids {
        print = blend(print, kid.print());
    }
    print
}

/// A summary with those of the formulas.
fn summaries(start: u64, kids: &[Formula]) -> u64
    ensures { result ≡ formula_summaries_from start (formulas kids.now) }
{
    let mut summary = start;
    'kids: for kid in kids {
        summary |= kid.summary();
    }
    summary
}
