//! Names of types of a file.
ghost use Rattle.std.specs.Prelude.{◌≡◌, IfOk, OnOk, is_some};
ghost use Rattle.floyd_elab_names.specs.declared.meaning.Meaning.TheVariants as m;
ghost use Rattle.floyd_elab_names.specs.Refusing.{GivesWith};
ghost use Rattle.floyd_elab_data.specs.Constant.{constant_at as constant_at_lem};
ghost use Rattle.floyd_elab.specs.Files.{top, add_meaning};
ghost use Rattle.floyd_elab.specs.Units.{typedef_of_name as typedef_of_name_lem, typedef as typedef_lem, all_typedefs as all_typedefs_lem};

use crate::file::File;
use crate::sites::{declarator_name, declare_type, judge_name};
use floyd_cparse_trees::{Declarator, Identifier, Specifiers};
use floyd_ctypes::CType;
use floyd_elab_data::constant_at;
use floyd_elab_names::{Meaning, returns_well};
use floyd_text::Halt;
use std::alloc::{AllocError, Global};

/// A typedef's specifiers, with the type that they name, and one of its declarators.
#[derive(Clone, Copy)]
struct TypedefParts<'a> {
    specifiers: &'a Specifiers,
    base: &'a CType,
    declarator: &'a Declarator,
}

/// Declares a name of that type.
fn add_type(
    alloc: Global,
    file: &mut File,
    i: &Identifier,
    t: &CType,
    constant: bool,
) -> Result<(), AllocError>
    ensures { OnOk result (file.new ≡ add_meaning i.now.name (m.Type t.now constant) file.old) }
{
    let meaning = Meaning::Type {
        ctype: t.share(alloc)?,
        constant,
    };
    file.add_meaning(alloc, &i.name, meaning)
}

/// Whether the type is const at its top.
fn is_constant(alloc: Global, file: &File, parts: TypedefParts<'_>) -> Result<bool, AllocError>
    ensures { IfOk result (λ b. b ≡ is_some (constant_at_lem (top file.now) parts.entry.specifiers.now parts.entry.base.now parts.entry.declarator.now)) }
{
    let names = file.scope.names();
    let constant = constant_at(alloc, names, parts.specifiers, parts.base, parts.declarator)?;
    Ok(constant.is_some())
}

/// A name of that type.
fn typedef_of_name(
    alloc: Global,
    file: &mut File,
    parts: TypedefParts<'_>,
    i: &Identifier,
    t: &CType,
) -> Result<(), Halt>
    ensures { GivesWith (λ u. u) result file.new (typedef_of_name_lem parts.entry.specifiers.now parts.entry.base.now parts.entry.declarator.now i.now t.now file.old) }
{
    let may = file.is_new(&i.name);
    judge_name(i, returns_well(t), may)?;
    let constant = is_constant(alloc, file, parts)?;
    add_type(alloc, file, i, t, constant)?;
    Ok(())
}

/// A name of a type, which is declared once.
fn typedef(
    alloc: Global,
    file: &mut File,
    specifiers: &Specifiers,
    base: &CType,
    d: &Declarator,
) -> Result<(), Halt>
    ensures { GivesWith (λ u. u) result file.new (typedef_lem specifiers.now base.now d.now file.old) }
{
    let i = declarator_name(alloc, d)?;
    let t = declare_type(alloc, file, base, d)?;
    let parts = TypedefParts {
        specifiers,
        base,
        declarator: d,
    };
    typedef_of_name(alloc, file, parts, &i, &t)
}

/// The names of types of one base.
pub(crate) fn all_typedefs(
    alloc: Global,
    file: &mut File,
    specifiers: &Specifiers,
    base: &CType,
    declarators: &[Declarator],
) -> Result<(), Halt>
    ensures { GivesWith (λ u. u) result file.new (all_typedefs_lem specifiers.now base.now declarators.now file.old) }
{
    'declarators: for d in declarators {
        typedef(alloc, file, specifiers, base, d)?;
    }
    Ok(())
}
