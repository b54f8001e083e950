ghost use Rattle.std.specs.Prelude.{◌≡◌, ◌<◌, ◌↔◌, IfOk, IfSome, IsTrue, length, position};
ghost use Rattle.floyd_arith.specs.Same.{same_term};
ghost use Rattle.floyd_fieldpath.specs.Nested.{sized_type as sized_type_lem};
ghost use Rattle.floyd_forward.specs.Return.{block_not_whole as block_not_whole_lem, is_full as is_full_lem, is_object as is_object_lem, is_whole as is_whole_lem, without_block as without_block_lem, without_blocks as without_blocks_lem};
ghost use Rattle.floyd_symexpr_paths.specs.Same.{same_type as same_type_lem};
ghost use Rattle.floyd_text.specs.Gives.{RuleGives};
ghost use Rattle.floyd_tree.specs.Plain.{At, Done};
ghost use Rattle.floyd_tree_sorts.specs.declared.heads.Head.TheVariants.{Lv};

use floyd_assert::{Region, Sep, SepList};
use floyd_clight::Local;
use floyd_fieldpath::{literal_in, sized_type};
use floyd_text::{Code, Name, No, RuleStop, Shown, Steps};
use floyd_tree::{AType, Head, MakeStop, Term, equal, make};
use std::alloc::{AllocError, Global};
use std::sync::ledger::Ledger;

/// Whether it is the literal 16.
fn is_full(share: &Term) -> bool
    ensures { result ≡ is_full_lem share.now }
{
    match literal_in(share) {
        Some(z) => z == 16,
        None => false,
    }
}

fn equal_sizes(a: &[Term], b: &[Term]) -> bool
    ensures { IsTrue result ↔ (a.now ≡ b.now) }
{
    if a.len() != b.len() {
        return false;
    }
    'sizes: for i in 0..a.len() {
        if !equal(&a[i], &b[i]) {
            return false;
        }
    }
    true
}

fn equal_types(a: &AType, b: &AType) -> bool
    ensures { IsTrue result ↔ (a.now ≡ b.now) }
{
    a.shape().get().same(b.shape().get()) && equal_sizes(a.sizes().as_slice(), b.sizes().as_slice())
}

/// Whether two types are one, with identical sizes of arrays.
fn same_type(a: &AType, b: &AType) -> bool
    ensures { result ≡ same_type_lem a.now b.now }
{
    equal_types(a, b)
}

/// Whether two terms are identical.
fn identical(a: &Term, b: &Term) -> bool
    ensures { result ≡ same_term a.now b.now }
{
    equal(a, b)
}

/// The object of a local variable: its type and its address.
struct Whole {
    ty: AType,
    root: Term,
}

impl Drop for Whole {
    fn drop(self) {
        let Whole { ty, root } = self;
        drop(ty);
        drop(root);
    }
}

/// The address of a local variable.
fn address_of<L: Ledger>(
    alloc: Global,
    name: &Name,
    steps: &mut Steps<L>,
) -> Result<Term, AllocError>
    ensures { IfOk result (λ t. t ≡ At (Lv name.now) Done) }
{
    match make(alloc, Head::Lv(name.share()?), &[], steps) {
        Ok(t) => Ok(t),
        Err(MakeStop::Memory) => Err(AllocError),
        Err(MakeStop::IllSorted) => unreachable!(),
        Err(MakeStop::TooLarge) => unreachable!(),
    }
}

fn whole_of<L: Ledger>(
    alloc: Global,
    block: &Local,
    steps: &mut Steps<L>,
) -> Result<Whole, AllocError>
    ensures { IfOk result (λ w. w ≡ record { ty = sized_type_lem block.now.ctype; root = At (Lv block.now.name) Done }) }
{
    let ty = sized_type(alloc, &block.ctype, steps)?;
    let root = address_of(alloc, &block.name, steps)?;
    Ok(Whole { ty, root })
}

/// Whether a region is the whole object, with the whole share.
fn is_object(whole: &Whole, region: &Region) -> bool
    ensures { result ≡ is_object_lem whole.now.ty whole.now.root region.now }
{
    is_full(&region.share)
        && region.path.len() == 0
        && identical(&region.root, &whole.root)
        && same_type(&region.ty, &whole.ty)
}

fn is_whole(whole: &Whole, part: &Sep) -> bool
    ensures { result ≡ is_whole_lem whole.now.ty whole.now.root part.now }
{
    match part {
        Sep::FieldAt(region, _) => is_object(whole, region),
        Sep::Padding(_) => false,
        Sep::Valid(_) => false,
        Sep::Anything => false,
        Sep::Predicate(_, _) => false,
    }
}

/// The place of the first part that is the whole object, from 0.
fn place_of(whole: &Whole, parts: &[Sep]) -> Option<usize>
    ensures value { result ≡ position (is_whole_lem whole.now.ty whole.now.root) parts.now }
    ensures within { IfSome result (λ i. i < length parts.now) }
{
    parts.iter().position(|part| is_whole(whole, part))
}

/// The refusal of a local variable whose object is not there whole.
fn block_not_whole(name: &Name) -> Result<No, AllocError>
    ensures { IfOk result (λ no. no ≡ block_not_whole_lem name.now) }
{
    Ok(No {
        code: Code::BlockNotWhole,
        shown: Shown::Name(name.share()?),
    })
}

/// The parts without the first one that is the whole object of the variable.
fn without_block<L: Ledger>(
    alloc: Global,
    block: &Local,
    parts: SepList,
    steps: &mut Steps<L>,
) -> Result<SepList, RuleStop>
    ensures exact { RuleGives (λ ps. ps) result (without_block_lem block.now parts) }
{
    let whole = whole_of(alloc, block, steps)?;
    let mut left = parts;
    match place_of(&whole, left.as_slice()) {
        Some(place) => {
            let _object = left.remove(place);
            Ok(left)
        }
        None => Err(RuleStop::No(block_not_whole(&block.name)?)),
    }
}

/// The parts without the whole objects of these variables.
#[tactic(auto, using(floyd_symexpr_rows::proofs::SayingLemmas::goes_on, floyd_symexpr_rows::proofs::SayingLemmas::stops))]
pub(crate) fn without_blocks<L: Ledger>(
    alloc: Global,
    blocks: &[Local],
    parts: SepList,
    steps: &mut Steps<L>,
) -> Result<SepList, RuleStop>
    ensures exact { RuleGives (λ ps. ps) result (without_blocks_lem blocks.now parts) }
{
    let mut left = parts;
    'each: for block in blocks {
        match without_block(alloc, block, left, steps) {
            Ok(parts) => left = parts,
            Err(stop) => return Err(stop),
        }
    }
    Ok(left)
}
