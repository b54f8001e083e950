ghost use Rattle.std.specs.Prelude.{◌≡◌};
ghost use Rattle.floyd_text.specs.Gives.{RuleGives};
ghost use Rattle.floyd_fieldpath.specs.Updates.{default_and as default_and_lem, default_of_field as default_of_field_lem, fields_default as fields_default_lem, first_value as first_value_lem, other_values as other_values_lem, others_written as others_written_lem, pair as pair_lem};
ghost use Rattle.floyd_fieldpath.specs.UpdateClauses.{others as others_lem, with_before as with_before_lem, with_behind as with_behind_lem, with_others as with_others_lem};

use crate::literals::sized_type;
use crate::nested::path_illegal;
use crate::projections::{default_of, first_of, second_of};
use crate::sums::two;
use crate::views::is_default;
use floyd_ctypes::{Field, StructTable};
use floyd_text::{Name, RuleStop, Steps};
use floyd_tree::{Operator, Term, TermList};
use sqlite_items::Items;
use std::alloc::Global;
use std::sync::ledger::Ledger;

/// The values of the fields beside one: of those before it in order, and of those behind it, if there are any, as their
/// pairs.
pub(crate) struct Others {
    before: TermList,
    behind: Option<Term>,
}

impl Drop for Others {
    fn drop(self) {
        let Others { before, behind } = self;
        drop(before);
        drop(behind);
    }
}

/// The values of the fields beside the first one of that name, or else the last.
#[tactic(auto, using(crate::proofs::FieldLemmas::last_field, crate::proofs::FieldLemmas::field_there, crate::proofs::FieldLemmas::rest_stops, crate::proofs::FieldLemmas::first_stops, crate::proofs::FieldLemmas::others_stop, crate::proofs::FieldLemmas::field_on, crate::proofs::FieldLemmas::no_field))]
pub(crate) fn others_of<L: Ledger>(
    alloc: Global,
    structs: &StructTable,
    fields: &[Field],
    name: &Name,
    v: &Term,
    steps: &mut Steps<L>,
) -> Result<Others, RuleStop>
    ensures exact { RuleGives (λ o. o) result (others_lem structs.now fields.now name.now v.now) }
{
    let mut before = Items::new(alloc);
    let mut value = v.share()?;
    'fields: for at in 0..fields.len() {
        if at + 1 == fields.len() {
            return Ok(Others {
                before,
                behind: None,
            });
        }
        let field = &fields[at];
        if name == &field.name {
            let rest = others_written(alloc, structs, &fields[at + 1..], &value, steps)?;
            return Ok(Others {
                before,
                behind: Some(rest),
            });
        }
        let first = first_value(alloc, structs, field, &value, steps)?;
        let rest = other_values(alloc, &value, steps)?;
        before.push(first)?;
        value = rest;
    }
    Err(RuleStop::No(path_illegal()))
}

/// The value of a field, with those of the others beside it.
#[tactic(auto, using(crate::proofs::WrittenLemmas::goes_on, crate::proofs::WrittenLemmas::stops))]
pub(crate) fn with_others<L: Ledger>(
    alloc: Global,
    others: &Others,
    u: &Term,
    steps: &mut Steps<L>,
) -> Result<Term, RuleStop>
    ensures exact { RuleGives (λ u. u) result (with_others_lem others.now u.now) }
{
    let value = with_behind(alloc, &others.behind, u, steps)?;
    with_before(alloc, others.before.as_slice(), &value, steps)
}

fn with_behind<L: Ledger>(
    alloc: Global,
    behind: &Option<Term>,
    u: &Term,
    steps: &mut Steps<L>,
) -> Result<Term, RuleStop>
    ensures exact { RuleGives (λ u. u) result (with_behind_lem behind.now u.now) }
{
    match behind {
        Some(rest) => pair(alloc, u, rest, steps),
        None => Ok(u.share()?),
    }
}

/// The value, paired with those before it from the last one back.
#[tactic(auto, using(crate::proofs::LastLemmas::at_end, crate::proofs::LastLemmas::one_back, crate::proofs::LastLemmas::back_stops))]
fn with_before<L: Ledger>(
    alloc: Global,
    before: &[Term],
    u: &Term,
    steps: &mut Steps<L>,
) -> Result<Term, RuleStop>
    ensures exact { RuleGives (λ u. u) result (with_before_lem before.now u.now) }
{
    let mut value = u.share()?;
    let mut at = before.len();
    'fields: while at > 0 {
        at -= 1;
        let more = pair(alloc, &before[at], &value, steps)?;
        value = more;
    }
    Ok(value)
}

fn pair<L: Ledger>(
    alloc: Global,
    a: &Term,
    b: &Term,
    steps: &mut Steps<L>,
) -> Result<Term, RuleStop>
    ensures exact { RuleGives (λ u. u) result (pair_lem a.now b.now) }
{
    two(alloc, Operator::Pair, a, b, steps)
}

/// The value of the first of two or more fields.
fn first_value<L: Ledger>(
    alloc: Global,
    structs: &StructTable,
    field: &Field,
    v: &Term,
    steps: &mut Steps<L>,
) -> Result<Term, RuleStop>
    ensures exact { RuleGives (λ u. u) result (first_value_lem structs.now field.now v.now) }
{
    if is_default(v) {
        default_of_field(alloc, structs, field, steps)
    } else {
        first_of(alloc, v, steps)
    }
}

/// What stands for the values of the others: a default stands for the defaults of all fields.
fn other_values<L: Ledger>(alloc: Global, v: &Term, steps: &mut Steps<L>) -> Result<Term, RuleStop>
    ensures exact { RuleGives (λ u. u) result (other_values_lem v.now) }
{
    if is_default(v) {
        Ok(v.share()?)
    } else {
        second_of(alloc, v, steps)
    }
}

/// The value of the others.
fn others_written<L: Ledger>(
    alloc: Global,
    structs: &StructTable,
    fields: &[Field],
    v: &Term,
    steps: &mut Steps<L>,
) -> Result<Term, RuleStop>
    ensures exact { RuleGives (λ u. u) result (others_written_lem structs.now fields.now v.now) }
{
    if is_default(v) {
        fields_default(alloc, structs, fields, steps)
    } else {
        second_of(alloc, v, steps)
    }
}

fn default_of_field<L: Ledger>(
    alloc: Global,
    structs: &StructTable,
    field: &Field,
    steps: &mut Steps<L>,
) -> Result<Term, RuleStop>
    ensures exact { RuleGives (λ u. u) result (default_of_field_lem structs.now field.now) }
{
    let t = sized_type(alloc, &field.ty, steps)?;
    default_of(alloc, structs, &t, steps)
}

/// The default of a field, paired with the value of those behind it.
#[tactic(auto, using(crate::proofs::WrittenLemmas::goes_on, crate::proofs::WrittenLemmas::stops))]
fn default_and<L: Ledger>(
    alloc: Global,
    structs: &StructTable,
    field: &Field,
    rest: &Term,
    steps: &mut Steps<L>,
) -> Result<Term, RuleStop>
    ensures exact { RuleGives (λ u. u) result (default_and_lem structs.now field.now rest.now) }
{
    let first = default_of_field(alloc, structs, field, steps)?;
    pair(alloc, &first, rest, steps)
}

/// The defaults of the fields, paired from the last one back.
#[tactic(auto, using(crate::proofs::FieldLemmas::last_default, crate::proofs::FieldLemmas::default_before, crate::proofs::FieldLemmas::last_default_stops, crate::proofs::FieldLemmas::default_stops))]
fn fields_default<L: Ledger>(
    alloc: Global,
    structs: &StructTable,
    fields: &[Field],
    steps: &mut Steps<L>,
) -> Result<Term, RuleStop>
    ensures exact { RuleGives (λ u. u) result (fields_default_lem structs.now fields.now) }
{
    if fields.is_empty() {
        return Err(RuleStop::No(path_illegal()));
    }
    let mut at = fields.len() - 1;
    let mut value = default_of_field(alloc, structs, &fields[at], steps)?;
    'fields: while at > 0 {
        at -= 1;
        let more = default_and(alloc, structs, &fields[at], &value, steps)?;
        value = more;
    }
    Ok(value)
}
