//! Parameters of functions.
ghost use Rattle.std.specs.Prelude.{◌≡◌, IfOk, is_some, option_map};
ghost use Rattle.std.specs.List.{list_all};
ghost use Rattle.std.specs.Option.{option_copied};
ghost use Rattle.floyd_elab_names.specs.Declarators.{name_of as name_of_lem};
ghost use Rattle.floyd_elab.specs.Units.{own_parameters as own_parameters_lem, have_all_names as have_all_names_lem, pair as pair_lem, parameters_of as parameters_of_lem, result_of as result_of_lem};
ghost use Rattle.floyd_elab.specs.UnitClauses.{names_of, local_of};

use floyd_clight::{Local, LocalList};
use floyd_cparse_trees::{Declarator, Parameter};
use floyd_ctypes::{CType, TypeList};
use floyd_elab_names::{is_bare, name_of};
use sqlite_items::{Items, at};
use std::alloc::{AllocError, Global};

/// The same types.
pub(crate) fn share_types(alloc: Global, types: &[CType]) -> Result<TypeList, AllocError>
    ensures { IfOk result (λ all. all ≡ types.now) }
{
    let mut all = Items::new(alloc);
    'types: for t in types {
        all.push(t.share(alloc)?)?;
    }
    Ok(all)
}

/// The parameters of a declarator that is a function's own: its parentheses stand directly behind its name.
fn own_parameters(d: &Declarator) -> Option<&Items<Parameter>>
    ensures { option_map names_of (option_copied result) ≡ own_parameters_lem d.now }
{
    match d {
        Declarator::Name(_) | Declarator::Absent => None,
        Declarator::Parenthesised { inner, .. } => own_parameters(inner.get()),
        Declarator::Pointer { inner, .. } => own_parameters(inner.get()),
        Declarator::Array { inner, .. } => own_parameters(inner.get()),
        Declarator::Function {
            inner,
            parameters,
            ..
        } => {
            if is_bare(inner.get()) {
                return Some(parameters);
            }
            own_parameters(inner.get())
        }
    }
}

/// Whether it is a function's own, and each of its parameters has a name.
pub(crate) fn have_all_names(d: &Declarator) -> bool
    ensures { result ≡ have_all_names_lem (own_parameters_lem d.now) }
{
    match own_parameters(d) {
        None => false,
        Some(parameters) => have_names(parameters.as_slice()),
    }
}

fn have_names(parameters: &[Parameter]) -> bool
    ensures { result ≡ list_all is_some (names_of parameters.now) }
{
    'parameters: for parameter in parameters {
        if name_of(&parameter.declarator).is_none() {
            return false;
        }
    }
    true
}

/// A parameter of that type, where it has a name and a type.
fn local(
    alloc: Global,
    parameter: &Parameter,
    t: Option<&CType>,
) -> Result<Option<Local>, AllocError>
    ensures { IfOk result (λ l. l ≡ local_of (name_of_lem parameter.now.declarator) (option_copied t.entry)) }
{
    match (name_of(&parameter.declarator), t) {
        (Some(i), Some(t)) => Ok(Some(Local {
            name: i.name.share()?,
            ctype: t.share(alloc)?,
        })),
        _ => Ok(None),
    }
}

/// Each parameter with its type, up to the first that has no name.
fn pair(alloc: Global, parameters: &[Parameter], types: &[CType]) -> Result<LocalList, AllocError>
    ensures { IfOk result (λ locals. locals ≡ pair_lem (names_of parameters.now) types.now) }
{
    let mut locals = Items::new(alloc);
    'parameters: for (k, parameter) in parameters.iter().enumerate() {
        let found = local(alloc, parameter, at(types, k))?;
        let Some(next) = found else {
            return Ok(locals);
        };
        locals.push(next)?;
    }
    Ok(locals)
}

/// The parameters of a function with a body.
#[tactic(auto, using(crate::proofs::ParameterLemmas::parameters_of_function, crate::proofs::ParameterLemmas::paired_none))]
pub(crate) fn parameters_of(
    alloc: Global,
    d: &Declarator,
    t: &CType,
) -> Result<LocalList, AllocError>
    ensures { IfOk result (λ locals. locals ≡ parameters_of_lem d.now t.now) }
{
    match t {
        CType::Function(types, _) => match own_parameters(d) {
            None => Ok(Items::new(alloc)),
            Some(parameters) => Ok(pair(alloc, parameters.as_slice(), types.as_slice())?),
        },
        CType::Void | CType::Int(_) | CType::Pointer(_) | CType::Array(_, _) | CType::Struct(_) =>
            Ok(Items::new(alloc)),
    }
}

/// The type of what it returns.
pub(crate) fn result_of(alloc: Global, t: &CType) -> Result<CType, AllocError>
    ensures { IfOk result (λ r. r ≡ result_of_lem t.now) }
{
    match t {
        CType::Function(_, result) => Ok(result.get().share(alloc)?),
        _ => Ok(CType::Void),
    }
}
