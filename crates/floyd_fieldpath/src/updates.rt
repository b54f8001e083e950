ghost use Rattle.std.specs.Prelude.{◌≡◌, IfOk};
ghost use Rattle.floyd_text.specs.Gives.{RuleGives};
ghost use Rattle.floyd_fieldpath.specs.Updates.{update as update_lem, with_field as with_field_lem, with_item as with_item_lem};
ghost use Rattle.floyd_fieldpath.specs.UpdateClauses.{level as level_lem, levels as levels_lem, within_levels as within_levels_lem};

use crate::elements::with_element;
use crate::fields::{others_of, with_others};
use crate::nested::{Passage, path_illegal, type_after, type_at};
use crate::projections::item;
use floyd_ctypes::StructTable;
use floyd_text::{Name, RuleStop, Shared, Steps};
use floyd_tree::{AType, Path, PathStep, Shape, Term};
use std::alloc::{AllocError, Global};
use std::sync::ledger::Ledger;

/// A step that is taken in a value of a type of this shape.
struct Level {
    shape: Shared<Shape>,
    step: PathStep,
    value: Term,
}

impl Drop for Level {
    fn drop(self) {
        let Level { shape, step, value } = self;
        drop(shape);
        drop(step);
        drop(value);
    }
}

/// The value of the type with another item at a path: pairs with another component, `vints` and `vlongs` of a list with
/// another number, and else `upd`. Only what stands on the way to the item is made anew; where a default stands there, the
/// other fields become their own defaults.
#[tactic(auto, using(crate::proofs::UpdateLemmas::path_stops, crate::proofs::UpdateLemmas::update_stops, crate::proofs::UpdateLemmas::update_gives))]
pub fn update<L: Ledger>(
    alloc: Global,
    structs: &StructTable,
    t: &AType,
    path: &Path,
    v: &Term,
    new: &Term,
    steps: &mut Steps<L>,
) -> Result<Term, RuleStop>
    ensures exact { RuleGives (λ u. u) result (update_lem structs.now t.now path.now v.now new.now) }
{
    let _nested = type_at(alloc, structs, t, path, steps)?;
    let levels = levels(alloc, structs, t, path, v, steps)?;
    within_levels(alloc, structs, levels.as_slice(), new, steps)
}

/// The levels of the value along the path, from the outermost one in.
#[tactic(auto, using(crate::proofs::LevelLemmas::no_level, crate::proofs::LevelLemmas::last_level, crate::proofs::LevelLemmas::level_on, crate::proofs::LevelLemmas::level_off, crate::proofs::LevelLemmas::level_stops))]
fn levels<L: Ledger>(
    alloc: Global,
    structs: &StructTable,
    t: &AType,
    path: &Path,
    v: &Term,
    steps: &mut Steps<L>,
) -> Result<Vec<Level>, RuleStop>
    ensures exact { RuleGives (λ all. all.items) result (levels_lem structs.now t.now path.now v.now) }
{
    let mut all = Vec::new(alloc);
    let mut inner = t.share(alloc)?;
    let mut value = v.share()?;
    'places: for place in 0..path.len() {
        let step = path.step(place);
        let Some(after) = type_after(alloc, structs, &inner, step, steps)? else {
            return Err(RuleStop::No(path_illegal()));
        };
        all.push(level_at(&inner, step, &value)?)?;
        if place + 1 == path.len() {
            return Ok(all);
        }
        let passage = Passage {
            from: &inner,
            to: &after,
            step,
        };
        let more = item(alloc, structs, passage, &value, steps)?;
        value = more;
        inner = after;
    }
    Ok(all)
}

fn level_at(t: &AType, step: &PathStep, value: &Term) -> Result<Level, AllocError>
    ensures { IfOk result (λ l. l ≡ level_lem t.now.shape step.now value.now) }
{
    Ok(Level {
        shape: t.shape().share()?,
        step: step.share()?,
        value: value.share()?,
    })
}

/// The value with the levels around it, from the innermost one out.
#[tactic(auto, using(crate::proofs::LastLemmas::at_end, crate::proofs::LastLemmas::one_back, crate::proofs::LastLemmas::back_stops))]
fn within_levels<L: Ledger>(
    alloc: Global,
    structs: &StructTable,
    levels: &[Level],
    new: &Term,
    steps: &mut Steps<L>,
) -> Result<Term, RuleStop>
    ensures exact { RuleGives (λ u. u) result (within_levels_lem structs.now levels.now new.now) }
{
    let mut value = new.share()?;
    let mut at = levels.len();
    'levels: while at > 0 {
        at -= 1;
        let around = with_item(alloc, structs, &levels[at], &value, steps)?;
        value = around;
    }
    Ok(value)
}

/// The value of the level with another item after its step.
fn with_item<L: Ledger>(
    alloc: Global,
    structs: &StructTable,
    level: &Level,
    u: &Term,
    steps: &mut Steps<L>,
) -> Result<Term, RuleStop>
    ensures exact { RuleGives (λ u. u) result (with_item_lem structs.now level.now.shape level.now.step level.now.value u.now) }
{
    match &level.step {
        PathStep::Field(name) => with_field(alloc, structs, level, name, u, steps),
        PathStep::Subscript(i) => with_element(alloc, i, &level.value, u, steps),
    }
}

/// The value of the level, which is a struct's, with another one for a field.
#[tactic(auto, using(crate::proofs::UpdateLemmas::no_field_of_pointer, crate::proofs::UpdateLemmas::no_field_of_array, crate::proofs::UpdateLemmas::no_field_of_function, crate::proofs::FieldLemmas::component_gives, crate::proofs::FieldLemmas::component_stops))]
fn with_field<L: Ledger>(
    alloc: Global,
    structs: &StructTable,
    level: &Level,
    name: &Name,
    u: &Term,
    steps: &mut Steps<L>,
) -> Result<Term, RuleStop>
    ensures exact { RuleGives (λ u. u) result (with_field_lem structs.now level.now.shape name.now level.now.value u.now) }
{
    match level.shape.get() {
        Shape::Struct(tag) => match structs.fields_of(tag) {
            Some(fields) => {
                let others = others_of(
                    alloc,
                    structs,
                    fields.as_slice(),
                    name,
                    &level.value,
                    steps,
                )?;
                with_others(alloc, &others, u, steps)
            }
            None => Err(RuleStop::No(path_illegal())),
        },
        Shape::Void => Err(RuleStop::No(path_illegal())),
        Shape::Int(_) => Err(RuleStop::No(path_illegal())),
        Shape::Pointer(_) => Err(RuleStop::No(path_illegal())),
        Shape::Array(_) => Err(RuleStop::No(path_illegal())),
        Shape::Function(_, _) => Err(RuleStop::No(path_illegal())),
    }
}
