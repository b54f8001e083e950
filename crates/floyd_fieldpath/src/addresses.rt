ghost use Rattle.std.specs.Prelude.{◌≡◌, [], IfOk, None, Ok, option_map, pos};
ghost use Rattle.floyd_text.specs.Gives.{RuleGives};
ghost use Rattle.floyd_assert_cells.specs.Types.{dot_offset, size_by};
ghost use Rattle.floyd_fieldpath.specs.Addresses.{address as address_lem, element_offset as element_offset_lem, number_or_zero as number_or_zero_lem, or_zero as or_zero_lem, path_sum as path_sum_lem, size_term as size_term_lem, step_sum as step_sum_lem, step_term as step_term_lem, with_term as with_term_lem};

use crate::literals::literal;
use crate::nested::{Passage, path_illegal, type_after, type_at};
use crate::sums::{moved, plus, times};
use floyd_ctypes::{CType, StructTable};
use floyd_text::{Name, RuleStop, Steps};
use floyd_tree::{AType, Path, PathStep, Shape, Term};
use std::alloc::{AllocError, Global};
use std::sync::ledger::Ledger;

/// The address at a path in an object of the type whose own address is the root: the root, moved by the sum of what each
/// step adds. A field adds its offset, a subscript the size of an element times the subscript; sums and products of
/// literals are folded.
#[tactic(auto, using(crate::proofs::AddressLemmas::typed_stops, crate::proofs::AddressLemmas::address_stops, crate::proofs::AddressLemmas::address_gives))]
pub fn address<L: Ledger>(
    alloc: Global,
    structs: &StructTable,
    t: &AType,
    path: &Path,
    root: &Term,
    steps: &mut Steps<L>,
) -> Result<Term, RuleStop>
    ensures exact { RuleGives (λ a. a) result (address_lem structs.now t.now path.now root.now) }
{
    let _nested = type_at(alloc, structs, t, path, steps)?;
    let sum = path_sum(alloc, structs, t, path, steps)?;
    moved(alloc, root, &sum, steps)
}

/// The sum of what the steps add, from the left.
#[tactic(auto, using(crate::proofs::AddressLemmas::sum_end, crate::proofs::AddressLemmas::sum_on, crate::proofs::AddressLemmas::sum_off, crate::proofs::AddressLemmas::sum_stops))]
fn path_sum<L: Ledger>(
    alloc: Global,
    structs: &StructTable,
    t: &AType,
    path: &Path,
    steps: &mut Steps<L>,
) -> Result<Term, RuleStop>
    ensures exact { RuleGives (λ a. a) result (path_sum_lem structs.now t.now path.now None) }
{
    let mut inner = t.share(alloc)?;
    let mut sum: Option<Term> = None;
    'places: for place in 0..path.len() {
        let step = path.step(place);
        let Some(after) = type_after(alloc, structs, &inner, step, steps)? else {
            return Err(RuleStop::No(path_illegal()));
        };
        let passage = Passage {
            from: &inner,
            to: &after,
            step,
        };
        let more = step_sum(alloc, structs, passage, &sum, steps)?;
        sum = Some(more);
        inner = after;
    }
    let total = or_zero(alloc, sum, steps)?;
    Ok(total)
}

fn or_zero<L: Ledger>(
    alloc: Global,
    sum: Option<Term>,
    steps: &mut Steps<L>,
) -> Result<Term, RuleStop>
    ensures exact { RuleGives (λ a. a) result (or_zero_lem sum) }
{
    match sum {
        Some(sum) => Ok(sum),
        None => Ok(literal(alloc, 0, steps)?),
    }
}

/// The sum behind a step.
#[tactic(auto, using(crate::proofs::WrittenLemmas::goes_on, crate::proofs::WrittenLemmas::stops))]
fn step_sum<L: Ledger>(
    alloc: Global,
    structs: &StructTable,
    passage: Passage<'_>,
    sum: &Option<Term>,
    steps: &mut Steps<L>,
) -> Result<Term, RuleStop>
    ensures exact { RuleGives (λ a. a) result (step_sum_lem structs.now passage.entry.from.now passage.entry.to.now passage.entry.step.now sum.now) }
{
    let n = step_term(alloc, structs, passage, steps)?;
    with_term(alloc, sum, n, steps)
}

/// The sum with one more.
fn with_term<L: Ledger>(
    alloc: Global,
    sum: &Option<Term>,
    n: Term,
    steps: &mut Steps<L>,
) -> Result<Term, RuleStop>
    ensures exact { RuleGives (λ a. a) result (with_term_lem sum.now n) }
{
    match sum {
        Some(sum) => plus(alloc, sum, &n, steps),
        None => Ok(n),
    }
}

/// What a step adds.
fn step_term<L: Ledger>(
    alloc: Global,
    structs: &StructTable,
    passage: Passage<'_>,
    steps: &mut Steps<L>,
) -> Result<Term, RuleStop>
    ensures exact { RuleGives (λ a. a) result (step_term_lem structs.now passage.entry.from.now passage.entry.to.now passage.entry.step.now) }
{
    match passage.step {
        PathStep::Field(name) => {
            let offset = field_offset(structs, passage.from.shape().get(), name);
            Ok(number_or_zero(alloc, offset, steps)?)
        }
        PathStep::Subscript(i) => element_offset(alloc, structs, passage.to, i, steps),
    }
}

/// The size of the type times a subscript.
#[tactic(auto, using(crate::proofs::WrittenLemmas::goes_on, crate::proofs::WrittenLemmas::stops))]
fn element_offset<L: Ledger>(
    alloc: Global,
    structs: &StructTable,
    element: &AType,
    i: &Term,
    steps: &mut Steps<L>,
) -> Result<Term, RuleStop>
    ensures exact { RuleGives (λ a. a) result (element_offset_lem structs.now element.now i.now) }
{
    let shape = element.shape().get();
    let bytes = size_term(alloc, structs, shape, element.sizes().as_slice(), steps)?;
    times(alloc, &bytes, i, steps)
}

#[tactic(auto, using(crate::proofs::AddressLemmas::no_offset_in_pointer, crate::proofs::AddressLemmas::no_offset_in_array, crate::proofs::AddressLemmas::no_offset_in_function))]
fn field_offset(structs: &StructTable, shape: &Shape, name: &Name) -> Option<u64>
    ensures { option_map pos result ≡ dot_offset structs.now shape.now name.now }
{
    match shape {
        Shape::Struct(tag) => structs.offset_of(tag, name),
        Shape::Void => None,
        Shape::Int(_) => None,
        Shape::Pointer(_) => None,
        Shape::Array(_) => None,
        Shape::Function(_, _) => None,
    }
}

fn number_or_zero<L: Ledger>(
    alloc: Global,
    n: Option<u64>,
    steps: &mut Steps<L>,
) -> Result<Term, AllocError>
    ensures { IfOk result (λ t. t ≡ number_or_zero_lem (option_map pos n)) }
{
    match n {
        Some(n) => literal(alloc, i128::from(n), steps),
        None => literal(alloc, 0, steps),
    }
}

/// The size of a type in bytes.
#[tactic(auto, using(crate::proofs::AddressLemmas::size_of_pointer, crate::proofs::AddressLemmas::size_of_function, crate::proofs::AddressLemmas::size_of_none, crate::proofs::AddressLemmas::array_stops, crate::proofs::AddressLemmas::array_gives))]
pub fn size_term<L: Ledger>(
    alloc: Global,
    structs: &StructTable,
    shape: &Shape,
    sizes: &[Term],
    steps: &mut Steps<L>,
) -> Result<Term, RuleStop>
    ensures exact { RuleGives (λ a. a) result (size_term_lem structs.now shape.now sizes.now) }
{
    match shape {
        Shape::Array(element) => {
            if sizes.len() == 0 {
                return Ok(literal(alloc, 0, steps)?);
            }
            let rest = &sizes[1..];
            let bytes = size_term(alloc, structs, element.get(), rest, steps)?;
            let count = &sizes[0];
            times(alloc, &bytes, count, steps)
        }
        Shape::Int(kind) => {
            let bytes = structs.size_of(&CType::Int(*kind));
            Ok(number_or_zero(alloc, bytes, steps)?)
        }
        Shape::Struct(tag) => {
            let bytes = structs.size_of(&CType::Struct(tag.share()?));
            Ok(number_or_zero(alloc, bytes, steps)?)
        }
        Shape::Pointer(_) => Ok(literal(alloc, 8, steps)?),
        Shape::Void => Ok(literal(alloc, 0, steps)?),
        Shape::Function(_, _) => Ok(literal(alloc, 0, steps)?),
    }
}
