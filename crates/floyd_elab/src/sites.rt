//! Names of declarators at the top of a file, and their types.
ghost use Rattle.std.specs.Prelude.{◌≡◌, IfOk};
ghost use Rattle.floyd_elab_names.specs.Refusing.{GivesWith};
ghost use Rattle.floyd_elab_statements.specs.Locals.{nowhere as nowhere_lem};
ghost use Rattle.floyd_elab.specs.Units.{declarator_name as declarator_name_lem, judge_name as judge_name_lem, declare_type as declare_type_lem};
ghost use Rattle.floyd_elab.specs.declared.file.File.{File as Kept};
ghost use Rattle.floyd_elab.specs.UnitClauses.{no_name as no_name_lem, declare_base as declare_base_lem, any_type as any_type_lem, unless_large as unless_large_lem};

use crate::file::File;
use floyd_cparse_trees::{Base, Declarator, Identifier};
use floyd_ctypes::CType;
use floyd_elab_names::{
    Site, base_type, declarator_type, ill_typed, is_object_within, left_out, limit_site, name_of,
    redeclared,
};
use floyd_text::{Halt, Name, Place};
use std::alloc::{AllocError, Global};

/// The name of no declarator, at no place.
fn no_name(alloc: Global) -> Result<Identifier, AllocError>
    ensures { IfOk result (λ i. i ≡ no_name_lem) }
{
    Ok(Identifier {
        name: Name::from_slice(alloc, b"")?,
        place: Place {
            file: 0,
            line: 0,
            column: 0,
        },
    })
}

/// The token of a declarator without a name, which none has here.
pub(crate) fn nowhere(alloc: Global) -> Result<Site, AllocError>
    ensures { IfOk result (λ s. s ≡ nowhere_lem) }
{
    let i = no_name(alloc)?;
    Ok(Site::of(&i)?)
}

/// The name of a declarator, which has one here.
pub(crate) fn declarator_name(alloc: Global, d: &Declarator) -> Result<Identifier, AllocError>
    ensures { IfOk result (λ i. i ≡ declarator_name_lem d.now) }
{
    match name_of(d) {
        Some(i) => Ok(Identifier {
            name: i.name.share()?,
            place: i.place,
        }),
        None => no_name(alloc),
    }
}

/// Refuses at a name what does not fit there, and then what may not be declared.
pub(crate) fn judge_name(i: &Identifier, fits: bool, may: bool) -> Result<(), Halt>
    ensures { (file : Kept) → GivesWith (λ u. u) result file (judge_name_lem i.now (λ s. fits) (λ s. may) file) }
{
    if !fits {
        return Err(Halt::Refused(ill_typed(i.place)));
    }
    if !may {
        return Err(Halt::Refused(redeclared(i)?));
    }
    Ok(())
}

/// The type that the specifiers of a declaration name.
pub(crate) fn declare_base(alloc: Global, file: &mut File, base: &Base) -> Result<CType, Halt>
    ensures { GivesWith (λ t. t) result file.new (declare_base_lem base.now file.old) }
{
    let site = nowhere(alloc)?;
    let names = file.scope.names();
    base_type(alloc, names, &mut file.tags, &site, base)
}

/// The type of a declarator, whatever its size.
fn any_type(alloc: Global, file: &mut File, base: &CType, d: &Declarator) -> Result<CType, Halt>
    ensures { GivesWith (λ t. t) result file.new (any_type_lem base.now d.now file.old) }
{
    let site = nowhere(alloc)?;
    let base = base.share(alloc)?;
    let names = file.scope.names();
    declarator_type(alloc, names, &mut file.tags, &site, base, d)
}

/// Refuses a type that is too large or too deep.
fn unless_large(alloc: Global, file: &File, d: &Declarator, t: &CType) -> Result<(), Halt>
    ensures { GivesWith (λ u. u) result file.now (unless_large_lem d.now t.now file.now) }
{
    if is_object_within(&file.tags.structs, t) {
        return Ok(());
    }
    let site = limit_site(&nowhere(alloc)?, d)?;
    Err(Halt::Refused(left_out(alloc, &site)?))
}

/// The type of a declarator, which is not too large or too deep.
pub(crate) fn declare_type(
    alloc: Global,
    file: &mut File,
    base: &CType,
    d: &Declarator,
) -> Result<CType, Halt>
    ensures { GivesWith (λ t. t) result file.new (declare_type_lem base.now d.now file.old) }
{
    let t = any_type(alloc, file, base, d)?;
    unless_large(alloc, file, d, &t)?;
    Ok(t)
}
