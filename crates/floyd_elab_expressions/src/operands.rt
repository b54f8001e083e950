//! What is done to operands that an expression owns.
ghost use Rattle.floyd_text.specs.Gives.{Gives};
ghost use Rattle.floyd_elab_names.specs.Declarators.{parenthesis, type_named as type_named_lem};
ghost use Rattle.floyd_elab_names.specs.Refusing.{and_then};
ghost use Rattle.floyd_elab_expressions.specs.Behind.{behind};
ghost use Rattle.floyd_elab_expressions.specs.Progress.{typing};
ghost use Rattle.floyd_elab_expressions.specs.Expressions.{read as read_lem, before_operator as before_operator_lem, prefix_operator as prefix_operator_lem, cast_to as cast_to_lem, before_member as before_member_lem, member as member_lem};

use crate::operators::{cast_to, member, prefix_operator};
use crate::progress::Progress;
use crate::reads::{before_member, before_operator, read};
use crate::translation::Translation;
use floyd_clight::StmtList;
use floyd_cparse_trees::{Identifier, MemberOp, PrefixOp, TypeName};
use floyd_ctypes::CType;
use floyd_elab_names::{Names, Site, type_named};
use floyd_text::{Halt, Place};
use std::alloc::Global;

/// An operator before an operand.
pub(crate) fn operator_of_operand(
    alloc: Global,
    op: PrefixOp,
    place: Place,
    a: Translation,
    progress: &mut Progress,
    out: &mut StmtList,
) -> Result<Translation, Halt>
    ensures exact { Gives (λ r. (behind out.new r, progress.new)) result (and_then (before_operator_lem op (behind out.old a) progress.old) (prefix_operator_lem op place)) }
{
    let value = before_operator(alloc, op, &a, progress, out)?;
    prefix_operator(alloc, op, place, &value)
}

/// The type that a cast names.
pub(crate) fn cast_type(
    alloc: Global,
    names: &Names,
    place: Place,
    n: &TypeName,
    progress: &mut Progress,
) -> Result<CType, Halt>
    ensures exact { Gives (λ t. (t, progress.new)) result (typing (type_named_lem names.now (parenthesis place) n.now) progress.old) }
{
    let site = Site::parenthesis(place);
    type_named(alloc, names, &mut progress.tags, &site, n)
}

/// A cast before an operand, which is read.
pub(crate) fn cast_of_operand(
    alloc: Global,
    place: Place,
    t: &CType,
    a: Translation,
    progress: &mut Progress,
    out: &mut StmtList,
) -> Result<Translation, Halt>
    ensures exact { Gives (λ r. (behind out.new r, progress.new)) result (and_then (read_lem (behind out.old a) progress.old) (cast_to_lem place t.now)) }
{
    let value = read(alloc, &a, progress, out)?;
    cast_to(alloc, place, t, &value)
}

/// A field that is taken, and the place of its operator.
#[derive(Clone, Copy)]
pub(crate) struct Access<'a> {
    pub(crate) op: MemberOp,
    pub(crate) place: Place,
    pub(crate) field: &'a Identifier,
}

/// A field of an operand.
pub(crate) fn field_of_operand(
    alloc: Global,
    access: Access<'_>,
    a: Translation,
    progress: &mut Progress,
    out: &mut StmtList,
) -> Result<Translation, Halt>
    ensures exact { Gives (λ r. (behind out.new r, progress.new)) result (and_then (before_member_lem access.entry.op (behind out.old a) progress.old) (member_lem access.entry.op access.entry.place access.entry.field.now)) }
{
    let value = before_member(alloc, access.op, &a, progress, out)?;
    member(
        alloc,
        access.op,
        access.place,
        access.field,
        &value,
        progress,
    )
}
