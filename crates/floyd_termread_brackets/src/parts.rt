//! What an item of a bracket is read as.
ghost use Rattle.std.specs.Prelude.{◌≡◌, option_map};
ghost use Rattle.std.specs.Option.{option_copied};
ghost use Rattle.floyd_termread_brackets.specs.Slots as specs;
ghost use Rattle.floyd_termread_wants.specs.Judging.{Judges};

use crate::slots::Part;
use floyd_cparse_trees::Identifier;
use floyd_fieldpath::value_sort;
use floyd_termread_scope::Scope;
use floyd_termread_wants::{JudgeStop, ill_sorted, unknown};
use floyd_text::Place;
use floyd_tree::AType;
use std::alloc::Global;

/// A type that has a value sort.
pub fn value_type(
    alloc: Global,
    scope: &Scope<'_>,
    place: Place,
    t: AType,
) -> Result<Part, JudgeStop>
    ensures exact { Judges (λ p. p) result (specs.value_type scope.now.defs.now.structs place t) }
{
    match value_sort(alloc, &scope.defs.structs, t.shape().get())? {
        Some(sort) => Ok(Part::Valued(t, sort)),
        None => Err(JudgeStop::Refused(ill_sorted(place))),
    }
}

/// A scalar type.
pub fn scalar_type(place: Place, t: AType) -> Result<Part, JudgeStop>
    ensures exact { Judges (λ p. p) result (specs.scalar_type place t) }
{
    if t.shape().get().is_scalar() {
        Ok(Part::Type(t))
    } else {
        Err(JudgeStop::Refused(ill_sorted(place)))
    }
}

fn named(i: &Identifier, holds: bool) -> Result<Part, JudgeStop>
    ensures exact { Judges (λ p. p) result (specs.named i.now holds) }
{
    if holds {
        Ok(Part::Name(i.name.share()?))
    } else {
        Err(JudgeStop::Refused(unknown(i)?))
    }
}

/// A name that `gv` may take.
pub fn global_part(scope: &Scope<'_>, name: Option<&Identifier>) -> Result<Part, JudgeStop>
    ensures exact { Judges (λ p. p) result (specs.global_part scope.now.defs.now.globals (option_copied name.entry)) }
{
    match name {
        Some(i) => named(i, scope.has_global(&i.name)),
        None => Err(JudgeStop::CutOff),
    }
}

/// A name that `lv` may take.
pub fn local_part(scope: &Scope<'_>, name: Option<&Identifier>) -> Result<Part, JudgeStop>
    ensures exact { Judges (λ p. p) result (specs.local_part (option_map (λ names. names.now) scope.now.locals) (option_copied name.entry)) }
{
    match name {
        Some(i) => named(i, scope.has_local(&i.name)),
        None => Err(JudgeStop::CutOff),
    }
}
