ghost use Rattle.std.specs.Prelude.{◌≡◌};
ghost use Rattle.floyd_entail.specs.Weaken.{Row, default_at as default_at_lem, weakened as weakened_lem, with_value as with_value_lem};
ghost use Rattle.floyd_fieldpath.specs.Projections.{default_of as default_of_lem};
ghost use Rattle.floyd_fieldpath.specs.Written.{ill_sorted as ill_sorted_lem, on_ok};
ghost use Rattle.floyd_goal.specs.Answers.{IsAnswer};
ghost use Rattle.floyd_text.specs.Gives.{RuleGives};

use floyd_assert::{Defs, Region, Sep, SepList, SpecTable};
use floyd_ctypes::StructTable;
use floyd_fieldpath::{default_term, nested_type, value_sort};
use floyd_goal_parts::{
    Args, Goal, GoalList, part_number, part_of, put_in_place, too_large, wrong_goal,
};
use floyd_text::{Code, No, RuleStop, Shown, Steps};
use floyd_tree::{AType, MakeStop, Term};
use std::alloc::Global;
use std::sync::ledger::Ledger;

/// The refusal of a type that has no default, which no part has.
fn ill_sorted() -> No
    ensures { result ≡ ill_sorted_lem }
{
    No {
        code: Code::IllSorted,
        shown: Shown::Nothing,
    }
}

/// The default of a type.
#[tactic(auto, using(floyd_fieldpath::proofs::WrittenLemmas::made_is, floyd_fieldpath::proofs::WrittenLemmas::ill_is, floyd_fieldpath::proofs::WrittenLemmas::large_is))]
fn default_of<L: Ledger>(
    alloc: Global,
    structs: &StructTable,
    t: &AType,
    steps: &mut Steps<L>,
) -> Result<Term, RuleStop>
    ensures exact { RuleGives (λ v. v) result (default_of_lem structs.now t.now) }
{
    let Some(sort) = value_sort(alloc, structs, t.shape().get())? else {
        return Err(RuleStop::No(ill_sorted()));
    };
    match default_term(alloc, t, &sort, steps) {
        Ok(v) => Ok(v),
        Err(MakeStop::Memory) => Err(RuleStop::Memory),
        Err(MakeStop::IllSorted) => Err(RuleStop::No(ill_sorted())),
        Err(MakeStop::TooLarge) => Err(RuleStop::No(too_large())),
    }
}

/// The default of the type at a region's path.
#[tactic(auto, using(floyd_fieldpath::proofs::WrittenLemmas::goes_on, floyd_fieldpath::proofs::WrittenLemmas::stops))]
fn default_at<L: Ledger>(
    alloc: Global,
    structs: &StructTable,
    region: &Region,
    steps: &mut Steps<L>,
) -> Result<Term, RuleStop>
    ensures exact { RuleGives (λ v. v) result (default_at_lem structs.now region.now) }
{
    let t = nested_type(alloc, structs, &region.ty, &region.path)?;
    default_of(alloc, structs, &t, steps)
}

#[tactic(auto, using(floyd_fieldpath::proofs::WrittenLemmas::goes_on, floyd_fieldpath::proofs::WrittenLemmas::stops))]
fn with_default<L: Ledger>(
    alloc: Global,
    structs: &StructTable,
    region: &Region,
    steps: &mut Steps<L>,
) -> Result<SepList, RuleStop>
    ensures exact { RuleGives (λ ps. ps) result (on_ok (default_at_lem structs.now region.now) (with_value_lem region.now)) }
{
    let value = default_at(alloc, structs, region, steps)?;
    let mut parts = SepList::new(alloc);
    parts.push(Sep::FieldAt(region.share(alloc)?, value))?;
    Ok(parts)
}

/// The part with the default of its type as its value, in a list.
fn weakened<L: Ledger>(
    alloc: Global,
    structs: &StructTable,
    part: &Sep,
    steps: &mut Steps<L>,
) -> Result<SepList, RuleStop>
    ensures exact { RuleGives (λ ps. ps) result (weakened_lem structs.now part.now) }
{
    match part {
        Sep::FieldAt(region, _) => with_default(alloc, structs, region, steps),
        Sep::Padding(_) => Err(RuleStop::No(wrong_goal())),
        Sep::Valid(_) => Err(RuleStop::No(wrong_goal())),
        Sep::Anything => Err(RuleStop::No(wrong_goal())),
        Sep::Predicate(_, _) => Err(RuleStop::No(wrong_goal())),
    }
}

/// Makes the value of a part of memory the default of its type. It keeps its share.
#[tactic(auto, using(floyd_goal_parts::proofs::RowLemmas::row_stops, floyd_goal_parts::proofs::RowLemmas::place_stops, floyd_goal_parts::proofs::RowLemmas::place_goes))]
pub fn do_weaken<L: Ledger>(
    alloc: Global,
    goal: &Goal,
    args: &Args,
    defs: &Defs,
    _specs: &SpecTable,
    steps: &mut Steps<L>,
) -> Result<GoalList, RuleStop>
    ensures exact { IsAnswer (Row defs.now.structs goal.now args.now) result }
{
    let number = part_number(args.target);
    let (source, part) = part_of(goal, number)?;
    let new = weakened(alloc, &defs.structs, part, steps)?;
    Ok(put_in_place(alloc, goal, source, number, new)?)
}
