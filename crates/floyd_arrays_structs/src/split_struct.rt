ghost use Rattle.std.specs.Prelude.{◌≡◌, ◌∷◌, []};
ghost use Rattle.floyd_arrays_structs.specs.SplitStruct.{Row, field_part as field_part_lem, field_parts as field_parts_lem, fields_in as fields_in_lem, split as split_lem};
ghost use Rattle.floyd_fieldpath.specs.Projections.{project as project_lem};
ghost use Rattle.floyd_goal.specs.Answers.{IsAnswer};
ghost use Rattle.floyd_text.specs.Gives.{RuleGives};
ghost use Rattle.floyd_tree.specs.declared.paths.PathStep.TheVariants.{Field as FieldStep};

use crate::padding::padding_parts;
use crate::structs::{StructPart, field_region, struct_of};
use floyd_assert::{Defs, Sep, SepList, SpecTable};
use floyd_ctypes::{Field, StructTable};
use floyd_fieldpath::project;
use floyd_goal_parts::{Args, Goal, GoalList, part_number, part_of, put_in_place, wrong_goal};
use floyd_text::{Name, RuleStop, Steps};
use floyd_tree::{Path, PathStep, Term};
use std::alloc::Global;
use std::sync::ledger::Ledger;

/// The value of the field of that name.
fn field_value<L: Ledger>(
    alloc: Global,
    structs: &StructTable,
    whole: &StructPart,
    name: &Name,
    steps: &mut Steps<L>,
) -> Result<Term, RuleStop>
    ensures exact { RuleGives (λ t. t) result (project_lem structs.now whole.now.ty (FieldStep name.now ∷ []) whole.now.value) }
{
    let mut path = Path::new(alloc);
    path.push(PathStep::Field(name.share()?))?;
    project(alloc, structs, &whole.ty, &path, &whole.value, steps)
}

/// The part of the field of that name.
#[tactic(auto, using(floyd_fieldpath::proofs::WrittenLemmas::goes_on, floyd_fieldpath::proofs::WrittenLemmas::stops))]
fn field_part<L: Ledger>(
    alloc: Global,
    structs: &StructTable,
    whole: &StructPart,
    name: &Name,
    steps: &mut Steps<L>,
) -> Result<Sep, RuleStop>
    ensures exact { RuleGives (λ p. p) result (field_part_lem structs.now whole.now name.now) }
{
    let value = field_value(alloc, structs, whole, name, steps)?;
    let region = field_region(alloc, &whole.region, name)?;
    Ok(Sep::FieldAt(region, value))
}

/// A part for each field, and those that stand behind them.
#[tactic(auto, using(crate::proofs::StructLemmas::ahead_none))]
fn field_parts<L: Ledger>(
    alloc: Global,
    structs: &StructTable,
    whole: &StructPart,
    behind: SepList,
    fields: &[Field],
    steps: &mut Steps<L>,
) -> Result<SepList, RuleStop>
    ensures exact { RuleGives (λ ps. ps) result (field_parts_lem structs.now whole.now behind fields.now) }
{
    let mut parts = SepList::new(alloc);
    'fields: for field in fields {
        let part = field_part(alloc, structs, whole, &field.name, steps)?;
        parts.push(part)?;
    }
    parts.append(behind)?;
    Ok(parts)
}

/// The parts of the struct's fields, and of its padding.
fn fields_in<L: Ledger>(
    alloc: Global,
    structs: &StructTable,
    whole: &StructPart,
    steps: &mut Steps<L>,
) -> Result<SepList, RuleStop>
    ensures exact { RuleGives (λ ps. ps) result (fields_in_lem structs.now whole.now) }
{
    let Some(fields) = structs.fields_of(&whole.tag) else {
        return Err(RuleStop::No(wrong_goal()));
    };
    let fields = fields.as_slice();
    let behind = padding_parts(alloc, structs, whole, fields)?;
    field_parts(alloc, structs, whole, behind, fields, steps)
}

#[tactic(auto, using(floyd_fieldpath::proofs::WrittenLemmas::goes_on, floyd_fieldpath::proofs::WrittenLemmas::stops))]
fn split<L: Ledger>(
    alloc: Global,
    structs: &StructTable,
    part: &Sep,
    steps: &mut Steps<L>,
) -> Result<SepList, RuleStop>
    ensures exact { RuleGives (λ ps. ps) result (split_lem structs.now part.now) }
{
    let whole = struct_of(alloc, structs, part)?;
    fields_in(alloc, structs, &whole, steps)
}

/// Makes of a struct one part for each field, and one for its padding where there is some. Each has the share of the whole.
#[tactic(auto, using(floyd_goal_parts::proofs::RowLemmas::row_stops, floyd_goal_parts::proofs::RowLemmas::place_stops, floyd_goal_parts::proofs::RowLemmas::place_goes))]
pub fn do_split_struct<L: Ledger>(
    alloc: Global,
    goal: &Goal,
    args: &Args,
    defs: &Defs,
    _specs: &SpecTable,
    steps: &mut Steps<L>,
) -> Result<GoalList, RuleStop>
    ensures exact { IsAnswer (Row defs.now.structs goal.now args.now) result }
{
    let number = part_number(args.target);
    let (source, part) = part_of(goal, number)?;
    let new = split(alloc, &defs.structs, part, steps)?;
    Ok(put_in_place(alloc, goal, source, number, new)?)
}
