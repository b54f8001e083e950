ghost use Rattle.std.specs.Prelude.{◌≡◌};
ghost use Rattle.floyd_text.specs.Gives.{RuleGives};
ghost use Rattle.floyd_fieldpath.specs.Projections.{component as component_lem, default_of as default_of_lem, element as element_lem, field_item as field_item_lem, first_of as first_of_lem, item as item_lem, item_at as item_at_lem, one as one_lem, project as project_lem, second_of as second_of_lem, value_at as value_at_lem};
ghost use Rattle.floyd_fieldpath.specs.Written.{written as written_lem};

use crate::defaults::default_term;
use crate::nested::{Passage, path_illegal, type_after, type_at};
use crate::sorts::value_sort;
use crate::sums::two;
use crate::views::{component_in, ints_in, is_default, longs_in};
use crate::writing::{ill_sorted, too_large, written};
use floyd_ctypes::{Field, StructTable};
use floyd_text::{Name, RuleStop, Steps};
use floyd_tree::{AType, Head, MakeStop, Operator, Path, PathStep, Shape, Term};
use std::alloc::Global;
use std::sync::ledger::Ledger;

/// The item at a path of a value of the type: a component of a pair term, a number of `vints` or `vlongs` as a value, the
/// default of a default, and else what `fst`, `snd` and `nth` give.
#[tactic(auto, using(crate::proofs::ProjectLemmas::project_stops, crate::proofs::ProjectLemmas::project_gives))]
pub fn project<L: Ledger>(
    alloc: Global,
    structs: &StructTable,
    t: &AType,
    path: &Path,
    v: &Term,
    steps: &mut Steps<L>,
) -> Result<Term, RuleStop>
    ensures exact { RuleGives (λ u. u) result (project_lem structs.now t.now path.now v.now) }
{
    let _nested = type_at(alloc, structs, t, path, steps)?;
    item_at(alloc, structs, t, path, v, steps)
}

/// The same of a path that has a type.
#[tactic(auto, using(crate::proofs::ProjectLemmas::item_end, crate::proofs::ProjectLemmas::item_on, crate::proofs::ProjectLemmas::item_off, crate::proofs::ProjectLemmas::item_stops))]
fn item_at<L: Ledger>(
    alloc: Global,
    structs: &StructTable,
    t: &AType,
    path: &Path,
    v: &Term,
    steps: &mut Steps<L>,
) -> Result<Term, RuleStop>
    ensures exact { RuleGives (λ u. u) result (item_at_lem structs.now t.now path.now v.now) }
{
    let mut inner = t.share(alloc)?;
    let mut value = v.share()?;
    'places: for place in 0..path.len() {
        let step = path.step(place);
        let Some(after) = type_after(alloc, structs, &inner, step, steps)? else {
            return Err(RuleStop::No(path_illegal()));
        };
        let passage = Passage {
            from: &inner,
            to: &after,
            step,
        };
        let more = item(alloc, structs, passage, &value, steps)?;
        value = more;
        inner = after;
    }
    Ok(value)
}

/// The item after a step.
pub(crate) fn item<L: Ledger>(
    alloc: Global,
    structs: &StructTable,
    passage: Passage<'_>,
    v: &Term,
    steps: &mut Steps<L>,
) -> Result<Term, RuleStop>
    ensures exact { RuleGives (λ u. u) result (item_lem structs.now passage.entry.from.now passage.entry.to.now passage.entry.step.now v.now) }
{
    match passage.step {
        PathStep::Field(name) => field_item(alloc, structs, passage, name, v, steps),
        PathStep::Subscript(i) => element(alloc, structs, passage.to, i, v, steps),
    }
}

/// A field of that name and type among those of a struct.
#[derive(Clone, Copy)]
struct Sought<'a> {
    fields: &'a [Field],
    name: &'a Name,
    ty: &'a AType,
}

/// The value of the field of that name in a struct's.
#[tactic(auto, using(crate::proofs::ProjectLemmas::no_field_of_pointer, crate::proofs::ProjectLemmas::no_field_of_array, crate::proofs::ProjectLemmas::no_field_of_function))]
fn field_item<L: Ledger>(
    alloc: Global,
    structs: &StructTable,
    passage: Passage<'_>,
    name: &Name,
    v: &Term,
    steps: &mut Steps<L>,
) -> Result<Term, RuleStop>
    ensures exact { RuleGives (λ u. u) result (field_item_lem structs.now passage.entry.from.now.shape passage.entry.to.now name.now v.now) }
{
    match passage.from.shape().get() {
        Shape::Struct(tag) => {
            if is_default(v) {
                return default_of(alloc, structs, passage.to, steps);
            }
            match structs.fields_of(tag) {
                Some(fields) => {
                    let sought = Sought {
                        fields: fields.as_slice(),
                        name,
                        ty: passage.to,
                    };
                    component(alloc, structs, sought, v, steps)
                }
                None => Err(RuleStop::No(path_illegal())),
            }
        }
        Shape::Void => Err(RuleStop::No(path_illegal())),
        Shape::Int(_) => Err(RuleStop::No(path_illegal())),
        Shape::Pointer(_) => Err(RuleStop::No(path_illegal())),
        Shape::Array(_) => Err(RuleStop::No(path_illegal())),
        Shape::Function(_, _) => Err(RuleStop::No(path_illegal())),
    }
}

/// The part of the value of these fields that is the named field's: the last field has the whole value.
#[tactic(auto, using(crate::proofs::ProjectLemmas::last_component, crate::proofs::ProjectLemmas::default_component, crate::proofs::ProjectLemmas::first_component, crate::proofs::ProjectLemmas::component_on, crate::proofs::ProjectLemmas::component_stops, crate::proofs::ProjectLemmas::component_end))]
fn component<L: Ledger>(
    alloc: Global,
    structs: &StructTable,
    sought: Sought<'_>,
    v: &Term,
    steps: &mut Steps<L>,
) -> Result<Term, RuleStop>
    ensures exact { RuleGives (λ u. u) result (component_lem structs.now sought.entry.ty.now sought.entry.fields.now sought.entry.name.now v.now) }
{
    let Sought { fields, name, ty } = sought;
    let mut value = v.share()?;
    'fields: for at in 0..fields.len() {
        if at + 1 == fields.len() {
            return Ok(value);
        }
        if is_default(&value) {
            return default_of(alloc, structs, ty, steps);
        }
        let field = &fields[at];
        if name == &field.name {
            return first_of(alloc, &value, steps);
        }
        let others = second_of(alloc, &value, steps)?;
        value = others;
    }
    Err(RuleStop::No(path_illegal()))
}

pub(crate) fn first_of<L: Ledger>(
    alloc: Global,
    v: &Term,
    steps: &mut Steps<L>,
) -> Result<Term, RuleStop>
    ensures exact { RuleGives (λ u. u) result (first_of_lem v.now) }
{
    match component_in(v, 0) {
        Some(part) => Ok(part.share()?),
        None => one(alloc, Operator::Fst, v, steps),
    }
}

pub(crate) fn second_of<L: Ledger>(
    alloc: Global,
    v: &Term,
    steps: &mut Steps<L>,
) -> Result<Term, RuleStop>
    ensures exact { RuleGives (λ u. u) result (second_of_lem v.now) }
{
    match component_in(v, 1) {
        Some(part) => Ok(part.share()?),
        None => one(alloc, Operator::Snd, v, steps),
    }
}

/// The element of an array's value at a subscript.
fn element<L: Ledger>(
    alloc: Global,
    structs: &StructTable,
    after: &AType,
    i: &Term,
    v: &Term,
    steps: &mut Steps<L>,
) -> Result<Term, RuleStop>
    ensures exact { RuleGives (λ u. u) result (element_lem structs.now after.now i.now v.now) }
{
    if is_default(v) {
        return default_of(alloc, structs, after, steps);
    }
    match ints_in(v) {
        Some(l) => value_at(alloc, Operator::Vint, i, l, steps),
        None => match longs_in(v) {
            Some(l) => value_at(alloc, Operator::Vlong, i, l, steps),
            None => two(alloc, Operator::Nth, i, v, steps),
        },
    }
}

/// A number of a list of numbers, as a value.
#[tactic(auto, using(crate::proofs::WrittenLemmas::goes_on, crate::proofs::WrittenLemmas::stops))]
fn value_at<L: Ledger>(
    alloc: Global,
    operator: Operator,
    i: &Term,
    l: &Term,
    steps: &mut Steps<L>,
) -> Result<Term, RuleStop>
    ensures exact { RuleGives (λ u. u) result (value_at_lem operator i.now l.now) }
{
    let n = two(alloc, Operator::Nth, i, l, steps)?;
    one(alloc, operator, &n, steps)
}

/// The default of a type that has a value sort.
#[tactic(auto, using(crate::proofs::WrittenLemmas::made_is, crate::proofs::WrittenLemmas::ill_is, crate::proofs::WrittenLemmas::large_is))]
pub(crate) fn default_of<L: Ledger>(
    alloc: Global,
    structs: &StructTable,
    t: &AType,
    steps: &mut Steps<L>,
) -> Result<Term, RuleStop>
    ensures exact { RuleGives (λ u. u) result (default_of_lem structs.now t.now) }
{
    let Some(sort) = value_sort(alloc, structs, t.shape().get())? else {
        return Err(RuleStop::No(ill_sorted()));
    };
    match default_term(alloc, t, &sort, steps) {
        Ok(term) => Ok(term),
        Err(MakeStop::Memory) => Err(RuleStop::Memory),
        Err(MakeStop::IllSorted) => Err(RuleStop::No(ill_sorted())),
        Err(MakeStop::TooLarge) => Err(RuleStop::No(too_large())),
    }
}

/// A term under an operator.
pub(crate) fn one<L: Ledger>(
    alloc: Global,
    operator: Operator,
    a: &Term,
    steps: &mut Steps<L>,
) -> Result<Term, RuleStop>
    ensures exact { RuleGives (λ u. u) result (written_lem (one_lem operator a.now)) }
{
    let kids = [a.share()?];
    written(alloc, Head::Operator(operator), &kids, steps)
}
