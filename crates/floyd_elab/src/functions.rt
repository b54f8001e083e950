//! Functions that are declared.
ghost use Rattle.std.specs.Prelude.{◌≡◌, OnOk};
ghost use Rattle.floyd_elab_names.specs.Refusing.{GivesWith};
ghost use Rattle.floyd_elab.specs.Files.{mention_function as mention_function_lem, declaration_of};
ghost use Rattle.floyd_elab.specs.Units.{no_initialiser as no_initialiser_lem, function_of_name as function_of_name_lem, function as function_lem};
ghost use Rattle.floyd_elab.specs.UnitClauses.{with_function};

use crate::file::File;
use crate::parameters::share_types;
use crate::sites::{declarator_name, judge_name};
use floyd_clight::{Declared, DeclaredList};
use floyd_cparse_trees::{Identifier, InitDeclarator, Initialiser};
use floyd_ctypes::CType;
use floyd_elab_names::{Meaning, ill_typed, returns_well};
use floyd_text::{Halt, Place};
use std::alloc::{AllocError, Global};

/// Puts a function of that type to the declared ones.
fn add_function(
    alloc: Global,
    functions: &mut DeclaredList,
    i: &Identifier,
    t: &CType,
) -> Result<(), AllocError>
    ensures { OnOk result (functions.new ≡ with_function functions.old i.now t.now) }
{
    match t {
        CType::Function(parameters, result) => {
            functions.push(Declared {
                name: i.name.share()?,
                place: i.place,
                parameters: share_types(alloc, parameters.as_slice())?,
                result: result.get().share(alloc)?,
            })?;
            Ok(())
        }
        CType::Void | CType::Int(_) | CType::Pointer(_) | CType::Array(_, _) | CType::Struct(_) =>
            Ok(()),
    }
}

/// Notes a function where it is first declared.
pub(crate) fn mention_function(
    alloc: Global,
    file: &mut File,
    i: &Identifier,
    t: &CType,
) -> Result<(), AllocError>
    ensures { OnOk result (file.new ≡ mention_function_lem i.now t.now file.old) }
{
    if !file.is_new(&i.name) {
        return Ok(());
    }
    file.add_meaning(alloc, &i.name, Meaning::Function(t.share(alloc)?))?;
    add_function(alloc, &mut file.functions, i, t)?;
    Ok(())
}

/// A function has no initialiser.
fn no_initialiser(file: &File, right: &Option<(Place, Initialiser)>) -> Result<(), Halt>
    ensures { GivesWith (λ u. u) result file.now (no_initialiser_lem right.now file.now) }
{
    match right {
        None => Ok(()),
        Some((place, _)) => Err(Halt::Refused(ill_typed(*place))),
    }
}

/// A function of that name and type.
fn function_of_name(
    alloc: Global,
    file: &mut File,
    i: &Identifier,
    t: &CType,
    right: &Option<(Place, Initialiser)>,
) -> Result<(), Halt>
    ensures { GivesWith (λ u. u) result file.new (function_of_name_lem i.now t.now right.now file.old) }
{
    let may = file.may_declare_function(&i.name, t);
    judge_name(i, returns_well(t), may)?;
    mention_function(alloc, file, i, t)?;
    no_initialiser(file, right)
}

/// A function of that type, which has no initialiser.
pub(crate) fn function(
    alloc: Global,
    file: &mut File,
    t: &CType,
    d: &InitDeclarator,
) -> Result<(), Halt>
    ensures { GivesWith (λ u. u) result file.new (function_lem t.now d.now file.old) }
{
    let i = declarator_name(alloc, &d.declarator)?;
    function_of_name(alloc, file, &i, t, &d.initialiser)
}
