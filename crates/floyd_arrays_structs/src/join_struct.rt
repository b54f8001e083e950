ghost use Rattle.std.specs.Prelude.{◌≡◌, ◌∷◌, ◌++◌, [], IfOk, Ok, drop};
ghost use Rattle.floyd_arrays_structs.specs.JoinStruct.{IsJoined, IsPutFor, Leaves, OfFields, OfFound, OfName, OfWhole, Row, is_first as is_first_lem, joined as joined_lem, last_field as last_field_lem, pairs as pairs_lem, whole_of as whole_of_lem};
ghost use Rattle.floyd_ctypes.specs.Layout.{IsLaidOut};
ghost use Rattle.floyd_fieldpath.specs.Updates.{pair as pair_lem};
ghost use Rattle.floyd_goal.specs.Answers.{IsAnswer};
ghost use Rattle.floyd_goal_parts.specs.Sources.{in_place as in_place_lem};
ghost use Rattle.floyd_text.specs.Gives.{RuleGives};

use crate::around::{around, last_field};
use crate::objects::{Found, found_in, lacks_first};
use crate::padding::padding_parts;
use crate::structs::{StructPart, struct_at};
use floyd_assert::{Assertion, Defs, Region, Sep, SepList, SpecTable, remove_parts};
use floyd_ctypes::{Field, StructTable};
use floyd_folding::written;
use floyd_goal_parts::{
    Args, Goal, GoalList, context_of, in_place, one_from, part_number, part_of, with_parts,
    wrong_goal,
};
use floyd_text::{Name, RuleStop, Steps};
use floyd_tree::{Head, Operator, Term, TermList};
use std::alloc::{AllocError, Global};
use std::sync::ledger::Ledger;

/// A struct, and the parts that go for it besides its first field.
struct Joined {
    whole: Sep,
    gone: SepList,
}

impl Drop for Joined {
    fn drop(self) {
        let Joined { whole, gone } = self;
        drop(whole);
        drop(gone);
    }
}

fn pair<L: Ledger>(
    alloc: Global,
    a: &Term,
    b: &Term,
    steps: &mut Steps<L>,
) -> Result<Term, RuleStop>
    ensures exact { RuleGives (λ t. t) result (pair_lem a.now b.now) }
{
    let kids = [a.share()?, b.share()?];
    written(alloc, Head::Operator(Operator::Pair), &kids, steps)
}

/// The value of a struct whose fields have these values, of which there must be one.
#[tactic(auto, using(crate::proofs::PairLemmas::no_pairs, crate::proofs::PairLemmas::last_value, crate::proofs::PairLemmas::one_back, crate::proofs::PairLemmas::at_front))]
fn pairs<L: Ledger>(alloc: Global, values: &[Term], steps: &mut Steps<L>) -> Result<Term, RuleStop>
    ensures exact { RuleGives (λ t. t) result (pairs_lem values.now) }
{
    let mut at = values.len();
    if at == 0 {
        return Err(RuleStop::No(wrong_goal()));
    }
    at -= 1;
    let mut value = values[at].share()?;
    'fields: while at > 0 {
        at -= 1;
        let more = pair(alloc, &values[at], &value, steps)?;
        value = more;
    }
    Ok(value)
}

/// A value, and others behind it.
fn all_values(alloc: Global, first: &Term, others: TermList) -> Result<TermList, AllocError>
    ensures { IfOk result (λ all. all ≡ first.now ∷ others) }
{
    let mut all = TermList::new(alloc);
    all.push(first.share()?)?;
    all.append(others)?;
    Ok(all)
}

/// The struct with that value, for these objects and its padding.
fn struct_for(
    alloc: Global,
    region: &Region,
    objects: SepList,
    padding: SepList,
    value: Term,
) -> Result<Joined, AllocError>
    ensures { IfOk result (λ j. joined_lem region.now (objects ++ padding) value ≡ Ok j) }
{
    let mut gone = objects;
    gone.append(padding)?;
    let whole = Sep::FieldAt(region.share(alloc)?, value);
    Ok(Joined { whole, gone })
}

/// The struct with the values of its first field and of the others.
fn whole_of<L: Ledger>(
    alloc: Global,
    whole: &StructPart,
    padding: SepList,
    found: Found,
    steps: &mut Steps<L>,
) -> Result<Joined, RuleStop>
    ensures exact { RuleGives (λ j. j) result (whole_of_lem whole.now padding found) }
{
    let (values, objects) = found.into_parts();
    let all = all_values(alloc, &whole.value, values)?;
    let value = pairs(alloc, all.as_slice(), steps)?;
    Ok(struct_for(alloc, &whole.region, objects, padding, value)?)
}

/// The same where its padding, if there is some, is among the parts.
fn of_found<L: Ledger>(
    alloc: Global,
    whole: &StructPart,
    padding: SepList,
    parts: &[Sep],
    found: Found,
    steps: &mut Steps<L>,
) -> Result<Joined, RuleStop>
    ensures exact { IsAnswer (OfFound whole.now padding parts.now found) result }
{
    let missing = lacks_first(parts, padding.as_slice());
    if missing {
        Err(RuleStop::No(wrong_goal()))
    } else {
        whole_of(alloc, whole, padding, found, steps)
    }
}

/// The fields but the first one.
#[tactic(auto, using(crate::proofs::AroundLemmas::rest_taken, crate::proofs::AroundLemmas::no_rest))]
fn behind_first(fields: &[Field]) -> &[Field]
    ensures { result.now ≡ drop 1 fields.now }
{
    match fields {
        [_, others @ ..] => others,
        [] => fields,
    }
}

/// The same where the parts of its other fields are there.
fn of_fields<L: Ledger>(
    alloc: Global,
    structs: &StructTable,
    parts: &[Sep],
    whole: &StructPart,
    fields: &[Field],
    steps: &mut Steps<L>,
) -> Result<Joined, RuleStop>
    requires { IsLaidOut structs.now whole.now.tag fields.now }
    ensures exact { IsAnswer (OfFields structs.now parts.now whole.now fields.now) result }
{
    let others = behind_first(fields);
    let found = found_in(alloc, &whole.region, parts, others)?;
    let padding = padding_parts(alloc, structs, whole, fields)?;
    of_found(alloc, whole, padding, parts, found, steps)
}

fn is_first(fields: &[Field], name: &Name) -> bool
    ensures { result ≡ is_first_lem fields.now name.now }
{
    match fields {
        [first, ..] => name == &first.name,
        [] => false,
    }
}

/// The same where that is the name of its first field.
fn of_whole<L: Ledger>(
    alloc: Global,
    structs: &StructTable,
    parts: &[Sep],
    name: &Name,
    whole: &StructPart,
    steps: &mut Steps<L>,
) -> Result<Joined, RuleStop>
    ensures exact { IsAnswer (OfWhole structs.now parts.now name.now whole.now) result }
{
    let Some(fields) = structs.fields_of(&whole.tag) else {
        return Err(RuleStop::No(wrong_goal()));
    };
    let fields = fields.as_slice();
    if !is_first(fields, name) {
        return Err(RuleStop::No(wrong_goal()));
    }
    of_fields(alloc, structs, parts, whole, fields, steps)
}

/// The struct of whose first field this is the region, and the value.
fn of_region<L: Ledger>(
    alloc: Global,
    structs: &StructTable,
    parts: &[Sep],
    region: &Region,
    value: &Term,
    steps: &mut Steps<L>,
) -> Result<Joined, RuleStop>
    ensures exact { IsAnswer (OfName structs.now parts.now region.now value.now (last_field_lem region.now.path)) result }
{
    let Some(name) = last_field(&region.path) else {
        return Err(RuleStop::No(wrong_goal()));
    };
    let outer = around(alloc, region)?;
    let whole = struct_at(alloc, structs, &outer, value)?;
    of_whole(alloc, structs, parts, name, &whole, steps)
}

/// The struct of whose first field this is the part.
fn joined_of<L: Ledger>(
    alloc: Global,
    structs: &StructTable,
    parts: &[Sep],
    part: &Sep,
    steps: &mut Steps<L>,
) -> Result<Joined, RuleStop>
    ensures exact { IsAnswer (IsJoined structs.now parts.now part.now) result }
{
    match part {
        Sep::FieldAt(region, value) => of_region(alloc, structs, parts, region, value, steps),
        Sep::Padding(_) => Err(RuleStop::No(wrong_goal())),
        Sep::Valid(_) => Err(RuleStop::No(wrong_goal())),
        Sep::Anything => Err(RuleStop::No(wrong_goal())),
        Sep::Predicate(_, _) => Err(RuleStop::No(wrong_goal())),
    }
}

/// The source's parts with the struct in place of the one of that number.
fn with_whole(
    alloc: Global,
    number: u32,
    whole: &Sep,
    source: &Assertion,
) -> Result<SepList, AllocError>
    ensures { IfOk result (λ ps. ps ≡ in_place_lem number (whole.now ∷ []) source.now.parts) }
{
    let mut new = SepList::new(alloc);
    new.push(whole.share(alloc)?)?;
    in_place(alloc, number, new, source.parts.as_slice())
}

/// The goal from the source with these parts.
fn leaves(
    alloc: Global,
    goal: &Goal,
    source: &Assertion,
    rest: SepList,
) -> Result<GoalList, AllocError>
    ensures { IfOk result (λ gs. Leaves goal.now source.now rest (Ok gs)) }
{
    let context = context_of(goal).after_command(alloc)?;
    one_from(alloc, goal, context, with_parts(alloc, source, rest)?)
}

/// The goal with the struct in place of the part of that number, and without the parts that go for it.
fn put_for(
    alloc: Global,
    goal: &Goal,
    source: &Assertion,
    number: u32,
    joined: &Joined,
) -> Result<GoalList, RuleStop>
    ensures exact { IsAnswer (IsPutFor goal.now number source.now joined.now) result }
{
    let parts = with_whole(alloc, number, &joined.whole, source)?;
    let rest = remove_parts(alloc, &parts, &joined.gone)?;
    Ok(leaves(alloc, goal, source, rest)?)
}

/// Makes a struct of the parts of its fields, the first of which is the given part, and of its padding where there is some.
/// It has their share, and the pairs of their values.
pub fn do_join_struct<L: Ledger>(
    alloc: Global,
    goal: &Goal,
    args: &Args,
    defs: &Defs,
    _specs: &SpecTable,
    steps: &mut Steps<L>,
) -> Result<GoalList, RuleStop>
    ensures exact { IsAnswer (Row defs.now.structs goal.now args.now) result }
{
    let number = part_number(args.target);
    let (source, part) = part_of(goal, number)?;
    let parts = source.parts.as_slice();
    let joined = joined_of(alloc, &defs.structs, parts, part, steps)?;
    put_for(alloc, goal, source, number, &joined)
}
