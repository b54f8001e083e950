//! A whole source.
ghost use Rattle.floyd_text.specs.Gives.{Gives};
ghost use Rattle.floyd_cparse_trees.specs.declared.declarations.External.TheVariants as external;
ghost use Rattle.floyd_elab_names.specs.Refusing.{GivesWith};
ghost use Rattle.floyd_elab.specs.Units.{elaborate_external as elaborate_external_lem, elaborate_externals as elaborate_externals_lem, elaboration};

use crate::declarations::declare_all;
use crate::file::File;
use crate::headings::function_with_body;
use crate::sites::declare_base;
use crate::typedefs::all_typedefs;
use crate::units::unit_of;
use floyd_clight::ClightUnit;
use floyd_cparse_trees::{CUnit, Declaration, External, Typedef};
use floyd_text::Halt;
use std::alloc::Global;

/// Variables and functions that are declared.
fn declaration(alloc: Global, file: &mut File, d: &Declaration) -> Result<(), Halt>
    ensures { GivesWith (λ u. u) result file.new (elaborate_external_lem (external.Declaration d.now) file.old) }
{
    let base = declare_base(alloc, file, &d.specifiers.base)?;
    declare_all(
        alloc,
        file,
        d.external,
        &d.specifiers,
        &base,
        d.declarators.as_slice(),
    )
}

/// Names of types.
fn typedefs(alloc: Global, file: &mut File, d: &Typedef) -> Result<(), Halt>
    ensures { GivesWith (λ u. u) result file.new (elaborate_external_lem (external.Typedef d.now) file.old) }
{
    let base = declare_base(alloc, file, &d.specifiers.base)?;
    all_typedefs(alloc, file, &d.specifiers, &base, d.declarators.as_slice())
}

/// One declaration of a source, behind what stands before it.
fn elaborate_external(alloc: Global, file: &mut File, e: &External) -> Result<(), Halt>
    ensures { GivesWith (λ u. u) result file.new (elaborate_external_lem e.now file.old) }
{
    match e {
        External::Declaration(d) => declaration(alloc, file, d),
        External::Typedef(d) => typedefs(alloc, file, d),
        External::Function(f) => function_with_body(alloc, file, f),
    }
}

/// The declarations of a source, behind what stands before them.
fn elaborate_externals(alloc: Global, file: &mut File, externals: &[External]) -> Result<(), Halt>
    ensures { GivesWith (λ u. u) result file.new (elaborate_externals_lem externals.now file.old) }
{
    'externals: for e in externals {
        elaborate_external(alloc, file, e)?;
    }
    Ok(())
}

/// Turns a source into Clight: its structs, its variables with their contents, and its functions.
///
/// A refusal is the first one from left to right. 303 stands at what is left out: a variable that is const at its top,
/// the address of a parameter, or a type that is too large or too deep. 401 is what is ill typed, 402 a name that was not
/// declared, 403 one that was declared before as something else, 404 an effect inside an expression, and 405 a cast that
/// is left out.
///
/// The source is what `floyd_cparse::parse` gives with the file number `_file`. The number stands in every place of the
/// source already, and refusals take it from there.
pub fn elaborate(alloc: Global, _file: u32, unit: &CUnit) -> Result<ClightUnit, Halt>
    ensures exact { Gives (λ u. u) result (elaboration unit.now) }
{
    let mut file = File::new(alloc)?;
    elaborate_externals(alloc, &mut file, unit.externals.as_slice())?;
    Ok(unit_of(alloc, file)?)
}
