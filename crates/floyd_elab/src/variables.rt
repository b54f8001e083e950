//! Variables of a file.
ghost use Rattle.std.specs.Prelude.{◌≡◌, ◌&&◌, ◌||◌, OnOk, true, not, is_some};
ghost use Rattle.floyd_elab_names.specs.declared.meaning.Meaning.TheVariants as m;
ghost use Rattle.floyd_elab_names.specs.declared.meaning.Storage.TheVariants as kept;
ghost use Rattle.floyd_elab_names.specs.Refusing.{GivesWith};
ghost use Rattle.floyd_elab.specs.Files.{may_declare, has_variable, mention_variable as mention_variable_lem};
ghost use Rattle.floyd_elab.specs.Units.{contents_of as contents_of_lem, define_if as define_if_lem, variable_of_name as variable_of_name_lem, variable as variable_lem};

use crate::file::File;
use crate::sites::{declarator_name, judge_name};
use floyd_clight::{Initial, Variable};
use floyd_cparse_trees::{Identifier, InitDeclarator, Initialiser};
use floyd_ctypes::CType;
use floyd_elab_data::contents;
use floyd_elab_names::{Meaning, Storage, is_object_type};
use floyd_text::{Halt, Name, Place};
use std::alloc::{AllocError, Global};

/// Notes a variable where it is first declared.
fn mention_variable(
    alloc: Global,
    file: &mut File,
    i: &Identifier,
    t: &CType,
) -> Result<(), AllocError>
    ensures { OnOk result (file.new ≡ mention_variable_lem i.now t.now file.old) }
{
    if !file.is_new(&i.name) {
        return Ok(());
    }
    let meaning = Meaning::Variable {
        called: i.name.share()?,
        ctype: t.share(alloc)?,
        storage: Storage::Global,
    };
    file.add_meaning(alloc, &i.name, meaning)?;
    file.mentioned.push(Variable {
        name: i.name.share()?,
        place: i.place,
        ctype: t.share(alloc)?,
        contents: None,
    })?;
    Ok(())
}

/// The contents of a variable that is defined. Without an initialiser they are zeros.
fn contents_of(
    alloc: Global,
    file: &File,
    t: &CType,
    right: &Option<(Place, Initialiser)>,
) -> Result<Initial, Halt>
    ensures { GivesWith (λ c. c) result file.now (contents_of_lem t.now right.now file.now) }
{
    match right {
        None => Ok(Initial::Absent),
        Some((place, initialiser)) => {
            let names = file.scope.names();
            Ok(contents(alloc, names, &file.tags, *place, t, initialiser)?)
        }
    }
}

/// Defines a variable.
fn define(
    alloc: Global,
    file: &mut File,
    i: &Identifier,
    t: &CType,
    right: &Option<(Place, Initialiser)>,
) -> Result<(), Halt>
    ensures { GivesWith (λ u. u) result file.new (define_if_lem true i.now t.now right.now file.old) }
{
    let first = contents_of(alloc, file, t, right)?;
    file.defined.add(Variable {
        name: i.name.share()?,
        place: i.place,
        ctype: t.share(alloc)?,
        contents: Some(first),
    })?;
    Ok(())
}

/// Whether a variable is defined where it is declared: without `extern`, or with an initialiser.
fn is_defined(external: bool, d: &InitDeclarator) -> bool
    ensures { result ≡ (not external || is_some d.now.initialiser) }
{
    !external || d.initialiser.is_some()
}

/// Whether a variable of that name and type may be declared here, and defined where it is.
fn may_be_here(file: &File, x: &Name, t: &CType, defines: bool) -> bool
    ensures { result ≡ (may_declare file.now x.now (m.Variable x.now t.now kept.Global) && not (defines && has_variable file.now x.now)) }
{
    file.may_declare_variable(x, t) && !(defines && file.defined.has(x))
}

/// Defines a variable where that is its definition.
fn define_if(
    alloc: Global,
    file: &mut File,
    defines: bool,
    i: &Identifier,
    t: &CType,
    right: &Option<(Place, Initialiser)>,
) -> Result<(), Halt>
    ensures { GivesWith (λ u. u) result file.new (define_if_lem defines i.now t.now right.now file.old) }
{
    if !defines {
        return Ok(());
    }
    define(alloc, file, i, t, right)
}

/// A variable of that name and type.
fn variable_of_name(
    alloc: Global,
    file: &mut File,
    defines: bool,
    i: &Identifier,
    t: &CType,
    right: &Option<(Place, Initialiser)>,
) -> Result<(), Halt>
    ensures { GivesWith (λ u. u) result file.new (variable_of_name_lem defines i.now t.now right.now file.old) }
{
    let fits = is_object_type(&file.tags.structs, t);
    let may = may_be_here(file, &i.name, t, defines);
    judge_name(i, fits, may)?;
    mention_variable(alloc, file, i, t)?;
    define_if(alloc, file, defines, i, t, right)
}

/// A variable of that type. It is in scope in its own initialiser.
pub(crate) fn variable(
    alloc: Global,
    file: &mut File,
    external: bool,
    t: &CType,
    d: &InitDeclarator,
) -> Result<(), Halt>
    ensures { GivesWith (λ u. u) result file.new (variable_lem external t.now d.now file.old) }
{
    let i = declarator_name(alloc, &d.declarator)?;
    let defines = is_defined(external, d);
    variable_of_name(alloc, file, defines, &i, t, &d.initialiser)
}
