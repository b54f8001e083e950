ghost use Rattle.std.specs.Prelude.{◌≡◌, IfOk};
ghost use Rattle.std.specs.Option.{option_copied};
ghost use Rattle.floyd_arrays_structs.specs.JoinStruct.{around as around_lem, last_field as last_field_lem, last_step as last_step_lem, name_of as name_of_lem, outer_path as outer_path_lem};

use floyd_assert::Region;
use floyd_text::Name;
use floyd_tree::{Path, PathStep};
use std::alloc::{AllocError, Global};

/// The last step of a path.
#[tactic(auto, using(crate::proofs::AroundLemmas::no_step))]
fn last_step(path: &Path) -> Option<&PathStep>
    ensures { option_copied result ≡ last_step_lem path.now }
{
    let count = path.len();
    if count == 0 {
        None
    } else {
        Some(path.step(count - 1))
    }
}

fn name_of(step: &PathStep) -> Option<&Name>
    ensures { option_copied result ≡ name_of_lem step.now }
{
    match step {
        PathStep::Field(name) => Some(name),
        PathStep::Subscript(_) => None,
    }
}

/// The name of the field with which a path ends.
pub(crate) fn last_field(path: &Path) -> Option<&Name>
    ensures { option_copied result ≡ last_field_lem path.now }
{
    match last_step(path) {
        Some(step) => name_of(step),
        None => None,
    }
}

/// The path without its last step.
fn outer_path(alloc: Global, path: &Path) -> Result<Path, AllocError>
    ensures { IfOk result (λ p. p ≡ outer_path_lem path.now) }
{
    let count = path.len().saturating_sub(1);
    let mut outer = Path::new(alloc);
    'steps: for place in 0..count {
        let next = path.step(place).share()?;
        outer.push(next)?;
    }
    Ok(outer)
}

/// The region of the struct around a field.
pub(crate) fn around(alloc: Global, region: &Region) -> Result<Region, AllocError>
    ensures { IfOk result (λ r. r ≡ around_lem region.now) }
{
    let share = region.share.share()?;
    let ty = region.ty.share(alloc)?;
    let path = outer_path(alloc, &region.path)?;
    let root = region.root.share()?;
    Ok(Region {
        share,
        ty,
        path,
        root,
    })
}
