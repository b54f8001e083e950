ghost use Rattle.std.specs.Prelude.{◌≡◌, ◌++◌, IfOk, OnOk, unwrap_or, map};
ghost use Rattle.floyd_tree.specs.Plain.{At, Done};
ghost use Rattle.floyd_tree_sorts.specs.declared.heads.Head.TheVariants.{Lv};
ghost use Rattle.floyd_tree_sorts.specs.declared.sorts.Sort.{Val};
ghost use Rattle.floyd_tree_values.specs.Defaults.{value_sort as value_sort_lem};
ghost use Rattle.floyd_fieldpath.specs.DefaultTerms.{default_term as default_term_lem};
ghost use Rattle.floyd_goal_forms.specs.Starts.{block_part as block_part_lem};

use floyd_assert_trees::{Region, Sep, SepList};
use floyd_clight::Local;
use floyd_ctypes::StructTable;
use floyd_fieldpath::{default_term, literal, sized_type, value_sort};
use floyd_text::{Name, Steps};
use floyd_tree::{AType, Head, Path, Sort, Term, make};
use std::alloc::{AllocError, Global};
use std::sync::ledger::Ledger;

/// `lv(x)`
#[tactic(auto, using(crate::proofs::StartLemmas::made_is))]
fn address_of<L: Ledger>(alloc: Global, x: &Name, steps: &mut Steps<L>) -> Result<Term, AllocError>
    ensures { IfOk result (λ t. t ≡ At (Lv x.now) Done) }
{
    let head = Head::Lv(x.share()?);
    match make(alloc, head, &[], steps) {
        Ok(t) => Ok(t),
        Err(_) => Err(AllocError),
    }
}

fn sort_of_type(alloc: Global, structs: &StructTable, t: &AType) -> Result<Sort, AllocError>
    ensures { IfOk result (λ s. s ≡ unwrap_or (value_sort_lem structs.now t.now.shape) Val) }
{
    match value_sort(alloc, structs, t.shape().get())? {
        None => Ok(Sort::Val),
        Some(sort) => Ok(sort),
    }
}

/// The default value of a type. One beyond the limits, as no type has it that is nested as far as types may be, is want of
/// memory.
#[tactic(auto, using(crate::proofs::StartLemmas::made_is))]
fn default_of<L: Ledger>(
    alloc: Global,
    structs: &StructTable,
    t: &AType,
    steps: &mut Steps<L>,
) -> Result<Term, AllocError>
    ensures { IfOk result (λ d. d ≡ default_term_lem t.now (unwrap_or (value_sort_lem structs.now t.now.shape) Val)) }
{
    let sort = sort_of_type(alloc, structs, t)?;
    match default_term(alloc, t, &sort, steps) {
        Ok(d) => Ok(d),
        Err(_) => Err(AllocError),
    }
}

/// The whole of a local variable, of which nothing is known.
fn block_part<L: Ledger>(
    alloc: Global,
    structs: &StructTable,
    block: &Local,
    steps: &mut Steps<L>,
) -> Result<Sep, AllocError>
    ensures { IfOk result (λ part. part ≡ block_part_lem structs.now block.now) }
{
    let share = literal(alloc, 16, steps)?;
    let ty = sized_type(alloc, &block.ctype, steps)?;
    let value = default_of(alloc, structs, &ty, steps)?;
    let root = address_of(alloc, &block.name, steps)?;
    let path = Path::new(alloc);
    let region = Region {
        share,
        ty,
        path,
        root,
    };
    Ok(Sep::FieldAt(region, value))
}

/// Puts them behind other parts.
pub(crate) fn put_blocks<L: Ledger>(
    alloc: Global,
    structs: &StructTable,
    blocks: &[Local],
    parts: &mut SepList,
    steps: &mut Steps<L>,
) -> Result<(), AllocError>
    ensures { OnOk result (parts.new ≡ parts.old ++ map (block_part_lem structs.now) blocks.now) }
{
    'each: for block in blocks {
        parts.push(block_part(alloc, structs, block, steps)?)?;
    }
    Ok(())
}
