ghost use Rattle.std.specs.Prelude.{◌≡◌, IfOk, Ok};
ghost use Rattle.floyd_arrays_structs.specs.StructParts.{field_region as field_region_lem, struct_at as struct_at_lem, struct_of as struct_of_lem, struct_part as struct_part_lem, with_shape as with_shape_lem, with_type as with_type_lem};
ghost use Rattle.floyd_text.specs.Gives.{RuleGives};

use floyd_assert::{Region, Sep};
use floyd_ctypes::StructTable;
use floyd_fieldpath::nested_type;
use floyd_goal_parts::wrong_goal;
use floyd_text::{Name, RuleStop};
use floyd_tree::{AType, PathStep, Shape, Term};
use std::alloc::{AllocError, Global};

/// A part whose type at its path is a struct: where it lies, its value, that type, and the struct's tag.
pub(crate) struct StructPart {
    pub(crate) region: Region,
    pub(crate) value: Term,
    pub(crate) ty: AType,
    pub(crate) tag: Name,
}

impl Drop for StructPart {
    fn drop(self) {
        let StructPart {
            region,
            value,
            ty,
            tag,
        } = self;
        drop(region);
        drop(value);
        drop(ty);
        drop(tag);
    }
}

fn struct_part(
    alloc: Global,
    region: &Region,
    value: &Term,
    t: &AType,
    tag: &Name,
) -> Result<StructPart, AllocError>
    ensures { IfOk result (λ s. struct_part_lem region.now value.now t.now tag.now ≡ Ok s) }
{
    let region = region.share(alloc)?;
    let value = value.share()?;
    let ty = t.share(alloc)?;
    let tag = tag.share()?;
    Ok(StructPart {
        region,
        value,
        ty,
        tag,
    })
}

#[tactic(auto, using(crate::proofs::StructLemmas::pointer_is_no_struct, crate::proofs::StructLemmas::array_is_no_struct, crate::proofs::StructLemmas::function_is_no_struct))]
fn with_shape(
    alloc: Global,
    region: &Region,
    value: &Term,
    t: &AType,
    shape: &Shape,
) -> Result<StructPart, RuleStop>
    ensures exact { RuleGives (λ s. s) result (with_shape_lem region.now value.now t.now shape.now) }
{
    match shape {
        Shape::Struct(tag) => Ok(struct_part(alloc, region, value, t, tag)?),
        Shape::Void => Err(RuleStop::No(wrong_goal())),
        Shape::Int(_) => Err(RuleStop::No(wrong_goal())),
        Shape::Pointer(_) => Err(RuleStop::No(wrong_goal())),
        Shape::Array(_) => Err(RuleStop::No(wrong_goal())),
        Shape::Function(_, _) => Err(RuleStop::No(wrong_goal())),
    }
}

fn with_type(
    alloc: Global,
    region: &Region,
    value: &Term,
    t: &AType,
) -> Result<StructPart, RuleStop>
    ensures exact { RuleGives (λ s. s) result (with_type_lem region.now value.now t.now) }
{
    with_shape(alloc, region, value, t, t.shape().get())
}

/// The struct at that region, which has that value.
#[tactic(auto, using(floyd_fieldpath::proofs::WrittenLemmas::goes_on, floyd_fieldpath::proofs::WrittenLemmas::stops))]
pub(crate) fn struct_at(
    alloc: Global,
    structs: &StructTable,
    region: &Region,
    value: &Term,
) -> Result<StructPart, RuleStop>
    ensures exact { RuleGives (λ s. s) result (struct_at_lem structs.now region.now value.now) }
{
    let t = nested_type(alloc, structs, &region.ty, &region.path)?;
    with_type(alloc, region, value, &t)
}

/// The part as a struct, which it must be.
pub(crate) fn struct_of(
    alloc: Global,
    structs: &StructTable,
    part: &Sep,
) -> Result<StructPart, RuleStop>
    ensures exact { RuleGives (λ s. s) result (struct_of_lem structs.now part.now) }
{
    match part {
        Sep::FieldAt(region, value) => struct_at(alloc, structs, region, value),
        Sep::Padding(_) => Err(RuleStop::No(wrong_goal())),
        Sep::Valid(_) => Err(RuleStop::No(wrong_goal())),
        Sep::Anything => Err(RuleStop::No(wrong_goal())),
        Sep::Predicate(_, _) => Err(RuleStop::No(wrong_goal())),
    }
}

/// The region of a field of the struct at this one.
pub(crate) fn field_region(
    alloc: Global,
    region: &Region,
    name: &Name,
) -> Result<Region, AllocError>
    ensures { IfOk result (λ r. r ≡ field_region_lem region.now name.now) }
{
    let share = region.share.share()?;
    let ty = region.ty.share(alloc)?;
    let mut path = region.path.share(alloc)?;
    path.push(PathStep::Field(name.share()?))?;
    let root = region.root.share()?;
    Ok(Region {
        share,
        ty,
        path,
        root,
    })
}
