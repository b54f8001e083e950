//! A variable that is in scope, and its initial value there.
ghost use Rattle.std.specs.Prelude.{◌≡◌, IfOk, OnOk};
ghost use Rattle.floyd_text.specs.Gives.{Gives};
ghost use Rattle.floyd_elab_names.specs.Declarators.{name_of, name_or_none as name_or_none_lem};
ghost use Rattle.floyd_elab_names.specs.Scopes.{leave, with_meaning};
ghost use Rattle.floyd_elab_statements.specs.Locals.{target_of as target_of_lem};
ghost use Rattle.floyd_elab_statements.specs.LocalClauses.{beginning, declare_one, targets};
ghost use Rattle.floyd_elab_statements.specs.PlaceClauses.{place_variable as place_variable_lem};

use crate::locals::{declare_variable, initialise, target_of};
use floyd_clight::StmtList;
use floyd_cparse_trees::{Declarator, LocalDeclarator};
use floyd_ctypes::CType;
use floyd_elab_expressions::{Progress, Translation};
use floyd_elab_names::{Meaning, Names, name_or_none};
use floyd_text::{Halt, Name};
use std::alloc::{AllocError, Global};

/// The name stands for this from here on. Gives what its initial value is assigned to.
fn bind(
    alloc: Global,
    x: &Name,
    meaning: Meaning,
    names: &mut Names,
) -> Result<Option<Translation>, AllocError>
    ensures names { OnOk result (names.new ≡ with_meaning x.now meaning names.old) }
    ensures target { IfOk result (λ o. targets o ≡ target_of_lem meaning) }
{
    let target = target_of(alloc, &meaning)?;
    names.declare(alloc, x, meaning)?;
    Ok(target)
}

/// The same of what a declarator declares.
fn in_scope(
    alloc: Global,
    d: &Declarator,
    meaning: Meaning,
    names: &mut Names,
) -> Result<Option<Translation>, AllocError>
    ensures names { OnOk result (names.new ≡ with_meaning (name_or_none_lem (name_of d.now)) meaning names.old) }
    ensures target { IfOk result (λ o. targets o ≡ target_of_lem meaning) }
{
    let x = name_or_none(alloc, d)?;
    bind(alloc, &x, meaning, names)
}

/// A variable that was declared, with its initial value. It is in scope there.
fn place_variable(
    alloc: Global,
    d: &LocalDeclarator,
    meaning: Meaning,
    names: &mut Names,
    progress: &mut Progress,
    out: &mut StmtList,
) -> Result<(), Halt>
    ensures exact { Gives (λ u. ((out.new, names.new), progress.new)) result (beginning out.old (place_variable_lem names.old d.now meaning progress.old)) }
    ensures left { OnOk result (leave names.new ≡ leave names.old) }
{
    let target = in_scope(alloc, &d.declarator, meaning, names)?;
    initialise(alloc, names, &target, &d.initialiser, progress, out)
}

/// A declarator with its base, and whether the address of its variable is taken.
#[derive(Clone, Copy)]
pub(crate) struct OneDeclarator<'a> {
    pub(crate) declarator: &'a LocalDeclarator,
    pub(crate) base: &'a CType,
    pub(crate) taken: bool,
}

/// One variable with its initial value. It is in scope there.
pub(crate) fn declare(
    alloc: Global,
    one: OneDeclarator<'_>,
    names: &mut Names,
    progress: &mut Progress,
    out: &mut StmtList,
) -> Result<(), Halt>
    ensures exact { Gives (λ u. ((out.new, names.new), progress.new)) result (beginning out.old (declare_one names.old one.entry.base.now one.entry.declarator.now one.entry.taken progress.old)) }
    ensures left { OnOk result (leave names.new ≡ leave names.old) }
{
    let d = one.declarator;
    let meaning = declare_variable(alloc, names, one.base, &d.declarator, one.taken, progress)?;
    place_variable(alloc, d, meaning, names, progress, out)
}
