//! Functions with a body.
ghost use Rattle.std.specs.Prelude.{◌≡◌, ◌&&◌, not};
ghost use Rattle.floyd_cparse_trees.specs.declared.statements.CStatement.{Block};
ghost use Rattle.floyd_elab_names.specs.declared.meaning.Meaning.TheVariants as m;
ghost use Rattle.floyd_elab_names.specs.Refusing.{GivesWith};
ghost use Rattle.floyd_elab_names.specs.Types.{returns_well as returns_well_lem};
ghost use Rattle.floyd_elab.specs.Files.{may_declare, has_body};
ghost use Rattle.floyd_elab.specs.Units.{own_parameters, have_all_names as have_all_names_lem, parameters_of as parameters_of_lem, result_of as result_of_lem, define_body as define_body_lem, function_with_body as function_with_body_lem};
ghost use Rattle.floyd_elab.specs.UnitClauses.{type_of_heading};

use crate::bodies::define_body;
use crate::file::File;
use crate::functions::mention_function;
use crate::parameters::{have_all_names, parameters_of, result_of};
use crate::sites::{declarator_name, declare_base, declare_type, judge_name};
use floyd_cparse_trees::{Declarator, FunctionDefinition, Identifier};
use floyd_ctypes::CType;
use floyd_elab_names::returns_well;
use floyd_text::{Halt, Name};
use std::alloc::Global;

/// The type of a function with a body.
fn heading(alloc: Global, file: &mut File, f: &FunctionDefinition) -> Result<CType, Halt>
    ensures { GivesWith (λ t. t) result file.new (type_of_heading f.now file.old) }
{
    let base = declare_base(alloc, file, &f.specifiers.base)?;
    declare_type(alloc, file, &base, &f.declarator)
}

/// Whether a function of that type may have a body: its own parameters have names.
fn is_definable(d: &Declarator, t: &CType) -> bool
    ensures { result ≡ (have_all_names_lem (own_parameters d.now) && returns_well_lem t.now) }
{
    have_all_names(d) && returns_well(t)
}

/// Whether a function of that name and type may have its body here.
fn may_be_here(file: &File, x: &Name, t: &CType) -> bool
    ensures { result ≡ (may_declare file.now x.now (m.Function t.now) && not (has_body file.now x.now)) }
{
    file.may_declare_function(x, t) && !file.bodies.has(x)
}

/// A function of that type, with its body.
fn body_of_function(
    alloc: Global,
    file: &mut File,
    i: Identifier,
    t: &CType,
    f: &FunctionDefinition,
) -> Result<(), Halt>
    ensures { GivesWith (λ u. u) result file.new (define_body_lem i (result_of_lem t.now) (parameters_of_lem f.now.declarator t.now) (Block f.now.body) file.old) }
{
    let result_type = result_of(alloc, t)?;
    let parameters = parameters_of(alloc, &f.declarator, t)?;
    define_body(alloc, file, i, result_type, parameters, f.body.as_slice())
}

/// A function with a body, which is in scope in that.
pub(crate) fn function_with_body(
    alloc: Global,
    file: &mut File,
    f: &FunctionDefinition,
) -> Result<(), Halt>
    ensures { GivesWith (λ u. u) result file.new (function_with_body_lem f.now file.old) }
{
    let i = declarator_name(alloc, &f.declarator)?;
    let t = heading(alloc, file, f)?;
    let fits = is_definable(&f.declarator, &t);
    let may = may_be_here(file, &i.name, &t);
    judge_name(&i, fits, may)?;
    mention_function(alloc, file, &i, &t)?;
    body_of_function(alloc, file, i, &t, f)
}
