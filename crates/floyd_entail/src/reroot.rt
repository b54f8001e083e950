ghost use Rattle.std.specs.Prelude.{◌≡◌, IfOk, Ok};
ghost use Rattle.floyd_entail.specs.Reroot.{Row, moved_to as moved_to_lem, of_type as of_type_lem, rerooted as rerooted_lem};
ghost use Rattle.floyd_fieldpath.specs.Nested.{nested_type as nested_type_lem};
ghost use Rattle.floyd_fieldpath.specs.Written.{on_ok};
ghost use Rattle.floyd_goal.specs.Answers.{IsAnswer};
ghost use Rattle.floyd_text.specs.Gives.{RuleGives};

use floyd_assert::{Defs, Region, Sep, SepList, SpecTable};
use floyd_ctypes::StructTable;
use floyd_fieldpath::{address, nested_type};
use floyd_goal_parts::{Args, Goal, GoalList, part_number, part_of, put_in_place, wrong_goal};
use floyd_text::{RuleStop, Steps};
use floyd_tree::{AType, Path, Term};
use std::alloc::{AllocError, Global};
use std::sync::ledger::Ledger;

/// An object of that type, of the region's share, at that address, in a list.
fn moved_to(
    alloc: Global,
    region: &Region,
    t: AType,
    value: &Term,
    root: Term,
) -> Result<SepList, AllocError>
    ensures { IfOk result (λ ps. moved_to_lem region.now t value.now root ≡ Ok ps) }
{
    let share = region.share.share()?;
    let region = Region {
        share,
        ty: t,
        path: Path::new(alloc),
        root,
    };
    let mut parts = SepList::new(alloc);
    parts.push(Sep::FieldAt(region, value.share()?))?;
    Ok(parts)
}

/// The object at the region's path, which has that type, as one that begins at its own address.
#[tactic(auto, using(floyd_fieldpath::proofs::WrittenLemmas::goes_on, floyd_fieldpath::proofs::WrittenLemmas::stops))]
fn of_type<L: Ledger>(
    alloc: Global,
    structs: &StructTable,
    region: &Region,
    value: &Term,
    t: AType,
    steps: &mut Steps<L>,
) -> Result<SepList, RuleStop>
    ensures exact { RuleGives (λ ps. ps) result (of_type_lem structs.now region.now value.now t) }
{
    let root = address(
        alloc,
        structs,
        &region.ty,
        &region.path,
        &region.root,
        steps,
    )?;
    Ok(moved_to(alloc, region, t, value, root)?)
}

#[tactic(auto, using(floyd_fieldpath::proofs::WrittenLemmas::goes_on, floyd_fieldpath::proofs::WrittenLemmas::stops))]
fn region_rerooted<L: Ledger>(
    alloc: Global,
    structs: &StructTable,
    region: &Region,
    value: &Term,
    steps: &mut Steps<L>,
) -> Result<SepList, RuleStop>
    ensures exact { RuleGives (λ ps. ps) result (on_ok (nested_type_lem structs.now region.now.ty region.now.path) (of_type_lem structs.now region.now value.now)) }
{
    let t = nested_type(alloc, structs, &region.ty, &region.path)?;
    of_type(alloc, structs, region, value, t, steps)
}

/// The part as one that begins at its own address, in a list.
fn rerooted<L: Ledger>(
    alloc: Global,
    structs: &StructTable,
    part: &Sep,
    steps: &mut Steps<L>,
) -> Result<SepList, RuleStop>
    ensures exact { RuleGives (λ ps. ps) result (rerooted_lem structs.now part.now) }
{
    match part {
        Sep::FieldAt(region, value) => region_rerooted(alloc, structs, region, value, steps),
        Sep::Padding(_) => Err(RuleStop::No(wrong_goal())),
        Sep::Valid(_) => Err(RuleStop::No(wrong_goal())),
        Sep::Anything => Err(RuleStop::No(wrong_goal())),
        Sep::Predicate(_, _) => Err(RuleStop::No(wrong_goal())),
    }
}

/// Makes a part of memory at a path one that begins at its own address. It keeps its share and its value.
#[tactic(auto, using(floyd_goal_parts::proofs::RowLemmas::row_stops, floyd_goal_parts::proofs::RowLemmas::place_stops, floyd_goal_parts::proofs::RowLemmas::place_goes))]
pub fn do_reroot<L: Ledger>(
    alloc: Global,
    goal: &Goal,
    args: &Args,
    defs: &Defs,
    _specs: &SpecTable,
    steps: &mut Steps<L>,
) -> Result<GoalList, RuleStop>
    ensures exact { IsAnswer (Row defs.now.structs goal.now args.now) result }
{
    let number = part_number(args.target);
    let (source, part) = part_of(goal, number)?;
    let new = rerooted(alloc, &defs.structs, part, steps)?;
    Ok(put_in_place(alloc, goal, source, number, new)?)
}
