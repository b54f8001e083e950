//! Variables and functions that one declaration declares.
ghost use Rattle.floyd_elab_names.specs.Refusing.{GivesWith};
ghost use Rattle.floyd_elab.specs.UnitClauses.{unless_constant as unless_constant_lem, declare_as as declare_as_lem};
ghost use Rattle.floyd_elab.specs.Units.{declare_one as declare_one_lem, declare_all as declare_all_lem};

use crate::file::File;
use crate::functions::function;
use crate::sites::declare_type;
use crate::variables::variable;
use floyd_cparse_trees::{Declarator, InitDeclarator, Specifiers};
use floyd_ctypes::CType;
use floyd_elab_data::constant_at;
use floyd_elab_names::{is_function, left_out};
use floyd_text::Halt;
use std::alloc::Global;

/// Refuses a type that is const at its top.
fn unless_constant(
    alloc: Global,
    file: &File,
    specifiers: &Specifiers,
    base: &CType,
    d: &Declarator,
) -> Result<(), Halt>
    ensures { GivesWith (λ u. u) result file.now (unless_constant_lem specifiers.now base.now d.now file.now) }
{
    match constant_at(alloc, file.scope.names(), specifiers, base, d)? {
        None => Ok(()),
        Some(site) => Err(Halt::Refused(left_out(alloc, &site)?)),
    }
}

/// A function or a variable of that type.
fn declare_as(
    alloc: Global,
    file: &mut File,
    external: bool,
    d: &InitDeclarator,
    t: &CType,
) -> Result<(), Halt>
    ensures { GivesWith (λ u. u) result file.new (declare_as_lem external d.now t.now file.old) }
{
    if is_function(t) {
        function(alloc, file, t, d)
    } else {
        variable(alloc, file, external, t, d)
    }
}

/// A variable or a function, whose type is not const at its top.
fn declare_one(
    alloc: Global,
    file: &mut File,
    external: bool,
    specifiers: &Specifiers,
    base: &CType,
    d: &InitDeclarator,
) -> Result<(), Halt>
    ensures { GivesWith (λ u. u) result file.new (declare_one_lem external specifiers.now base.now d.now file.old) }
{
    unless_constant(alloc, file, specifiers, base, &d.declarator)?;
    let t = declare_type(alloc, file, base, &d.declarator)?;
    declare_as(alloc, file, external, d, &t)
}

/// The variables and functions of one base.
pub(crate) fn declare_all(
    alloc: Global,
    file: &mut File,
    external: bool,
    specifiers: &Specifiers,
    base: &CType,
    declarators: &[InitDeclarator],
) -> Result<(), Halt>
    ensures { GivesWith (λ u. u) result file.new (declare_all_lem external specifiers.now base.now declarators.now file.old) }
{
    'declarators: for d in declarators {
        declare_one(alloc, file, external, specifiers, base, d)?;
    }
    Ok(())
}
