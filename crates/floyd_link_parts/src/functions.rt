//! The functions of a linked program.
ghost use Rattle.std.specs.Prelude.{◌≡◌, [], ◌∷◌, Some, IfOk, OnOk, bytes_eq};
ghost use Rattle.std.specs.Map.{lookup};
ghost use Rattle.floyd_int.specs.declared.kinds.IntKind.TheVariants.{I32};
ghost use Rattle.floyd_int.specs.declared.kinds.Value.TheVariants.{Vint};
ghost use Rattle.floyd_ctypes.specs.declared.ctype.CType.{Int};
ghost use Rattle.floyd_clight.specs.declared.syntax.Expr.{Const};
ghost use Rattle.floyd_clight.specs.declared.syntax.Stmt.{Return, Seq};
ghost use Rattle.floyd_link_names.specs.DuplicateClauses.{all_names};
ghost use Rattle.floyd_link_names.specs.Names.{parameter_types as parameter_types_lem};
ghost use Rattle.floyd_link_parts.specs.Parts as specs;
ghost use Rattle.floyd_link_parts.specs.PartClauses as clauses;

use crate::owns::owns_of;
use floyd_assert_trees::{Funspec, Names, Precondition, Table};
use floyd_clight::{ClightUnit, Declared, Defined, Expr, Local, LocalList, Stmt};
use floyd_ctypes::{CType, TypeList};
use floyd_goal_meaning::{LinkedFunction, LinkedFunctionList};
use floyd_int::{IntKind, Value};
use floyd_link_names::{is_main, names_of};
use floyd_specread_sources::put_new;
use floyd_specread_trees::ModuleSpec;
use floyd_text::{Name, Shared};
use sqlite_items::Items;
use std::alloc::{AllocError, Global};

fn share_local(alloc: Global, local: &Local) -> Result<Local, AllocError>
    ensures { IfOk result (λ l. l ≡ local.now) }
{
    let name = local.name.share()?;
    let ctype = local.ctype.share(alloc)?;
    Ok(Local { name, ctype })
}

fn share_locals(alloc: Global, locals: &[Local]) -> Result<LocalList, AllocError>
    ensures { IfOk result (λ all. all ≡ locals.now) }
{
    let mut all = Items::new(alloc);
    'locals: for local in locals {
        all.push(share_local(alloc, local)?)?;
    }
    Ok(all)
}

fn share_types(alloc: Global, types: &[CType]) -> Result<TypeList, AllocError>
    ensures { IfOk result (λ all. all ≡ types.now) }
{
    let mut all = Items::new(alloc);
    'types: for ctype in types {
        all.push(ctype.share(alloc)?)?;
    }
    Ok(all)
}

fn types_of(alloc: Global, parameters: &[Local]) -> Result<TypeList, AllocError>
    ensures { IfOk result (λ all. all ≡ parameter_types_lem parameters.now) }
{
    let mut all = Items::new(alloc);
    'parameters: for parameter in parameters {
        all.push(parameter.ctype.share(alloc)?)?;
    }
    Ok(all)
}

/// `return 0;`
fn return_zero() -> Stmt
    ensures { result ≡ Return (Some (Const (Vint 0) (Int I32))) }
{
    Stmt::Return(Some(Expr::Const(Value::Vint(0), CType::Int(IntKind::I32))))
}

fn with_return(alloc: Global, body: Stmt) -> Result<Stmt, AllocError>
    ensures { IfOk result (λ s. s ≡ Seq (body ∷ Return (Some (Const (Vint 0) (Int I32))) ∷ [])) }
{
    let mut parts = Items::new(alloc);
    parts.push(body)?;
    parts.push(return_zero())?;
    Ok(Stmt::Seq(parts))
}

fn body_of(alloc: Global, function: &Defined) -> Result<Stmt, AllocError>
    ensures { IfOk result (λ s. s ≡ (specs.whole function.now).body) }
{
    let body = function.body.share(alloc)?;
    if is_main(function) {
        return with_return(alloc, body);
    }
    Ok(body)
}

/// The function with its whole body.
fn whole(alloc: Global, function: &Defined) -> Result<Defined, AllocError>
    ensures { IfOk result (λ d. d ≡ specs.whole function.now) }
{
    let name = function.name.share()?;
    let result_type = function.result.share(alloc)?;
    let parameters = share_locals(alloc, function.parameters.as_slice())?;
    let blocks = share_locals(alloc, function.blocks.as_slice())?;
    let temporaries = share_locals(alloc, function.temporaries.as_slice())?;
    let body = body_of(alloc, function)?;
    Ok(Defined {
        name,
        place: function.place,
        result: result_type,
        parameters,
        blocks,
        temporaries,
        body,
    })
}

fn own_of(owns: &Table<Shared<Funspec>>, name: &Name) -> Result<Option<Shared<Funspec>>, AllocError>
    ensures { IfOk result (λ s. s ≡ lookup (bytes_eq name.now) owns.now) }
{
    match owns.get(name) {
        None => Ok(None),
        Some(spec) => Ok(Some(spec.share()?)),
    }
}

fn with_body(
    alloc: Global,
    owns: &Table<Shared<Funspec>>,
    function: &Defined,
) -> Result<LinkedFunction, AllocError>
    ensures { IfOk result (λ f. f ≡ clauses.body_by owns.now function.now) }
{
    let name = function.name.share()?;
    let parameters = types_of(alloc, function.parameters.as_slice())?;
    let result_type = function.result.share(alloc)?;
    let own = own_of(owns, &function.name)?;
    let body = Some(whole(alloc, function)?);
    Ok(LinkedFunction {
        name,
        place: function.place,
        parameters,
        result: result_type,
        own,
        body,
    })
}

fn external(
    alloc: Global,
    owns: &Table<Shared<Funspec>>,
    function: &Declared,
) -> Result<LinkedFunction, AllocError>
    ensures { IfOk result (λ f. f ≡ clauses.external_by owns.now function.now) }
{
    let name = function.name.share()?;
    let parameters = share_types(alloc, function.parameters.as_slice())?;
    let result_type = function.result.share(alloc)?;
    let own = own_of(owns, &function.name)?;
    Ok(LinkedFunction {
        name,
        place: function.place,
        parameters,
        result: result_type,
        own,
        body: None,
    })
}

/// Adds functions with a body, and their names.
fn put_bodies(
    alloc: Global,
    owns: &Table<Shared<Funspec>>,
    all: &mut LinkedFunctionList,
    names: &mut Names,
    functions: &[Defined],
) -> Result<(), AllocError>
    ensures { OnOk result ((all.new, names.new) ≡ clauses.put_bodies owns.now functions.now (all.old, names.old)) }
{
    let mut rest = functions;
    'functions: while let Some((function, more)) = rest.split_first() {
        all.push(with_body(alloc, owns, function)?)?;
        let name = function.name.share()?;
        put_new(names, name, ())?;
        rest = more;
    }
    Ok(())
}

fn put_units(
    alloc: Global,
    owns: &Table<Shared<Funspec>>,
    all: &mut LinkedFunctionList,
    names: &mut Names,
    units: &[ClightUnit],
) -> Result<(), AllocError>
    ensures { OnOk result ((all.new, names.new) ≡ clauses.put_units owns.now units.now (all.old, names.old)) }
{
    let mut rest = units;
    'units: while let Some((unit, more)) = rest.split_first() {
        put_bodies(alloc, owns, all, names, unit.defined.as_slice())?;
        rest = more;
    }
    Ok(())
}

/// Adds an external function, unless its name is there or is defined.
fn put_external(
    alloc: Global,
    owns: &Table<Shared<Funspec>>,
    defined: &Names,
    all: &mut LinkedFunctionList,
    names: &mut Names,
    function: &Declared,
) -> Result<(), AllocError>
    ensures { OnOk result ((all.new, names.new) ≡ clauses.put_external owns.now defined.now function.now (all.old, names.old)) }
{
    if defined.get(&function.name).is_some() || names.get(&function.name).is_some() {
        return Ok(());
    }
    all.push(external(alloc, owns, function)?)?;
    let name = function.name.share()?;
    put_new(names, name, ())
}

fn put_externals(
    alloc: Global,
    owns: &Table<Shared<Funspec>>,
    defined: &Names,
    all: &mut LinkedFunctionList,
    names: &mut Names,
    functions: &[Declared],
) -> Result<(), AllocError>
    ensures { OnOk result ((all.new, names.new) ≡ clauses.put_externals owns.now defined.now functions.now (all.old, names.old)) }
{
    let mut rest = functions;
    'functions: while let Some((function, more)) = rest.split_first() {
        put_external(alloc, owns, defined, all, names, function)?;
        rest = more;
    }
    Ok(())
}

fn put_declared(
    alloc: Global,
    owns: &Table<Shared<Funspec>>,
    defined: &Names,
    all: &mut LinkedFunctionList,
    names: &mut Names,
    units: &[ClightUnit],
) -> Result<(), AllocError>
    ensures { OnOk result ((all.new, names.new) ≡ clauses.put_declared owns.now defined.now units.now (all.old, names.old)) }
{
    let mut rest = units;
    'units: while let Some((unit, more)) = rest.split_first() {
        put_externals(alloc, owns, defined, all, names, unit.declared.as_slice())?;
        rest = more;
    }
    Ok(())
}

fn functions_with(
    alloc: Global,
    owns: &Table<Shared<Funspec>>,
    units: &[ClightUnit],
) -> Result<LinkedFunctionList, AllocError>
    ensures { IfOk result (λ all. all ≡ (clauses.put_declared owns.now (all_names [] units.now) units.now (clauses.put_units owns.now units.now ([], []))).0) }
{
    let defined = names_of(alloc, units)?;
    let mut all = Items::new(alloc);
    let mut names = Table::new(alloc);
    put_units(alloc, owns, &mut all, &mut names, units)?;
    put_declared(alloc, owns, &defined, &mut all, &mut names, units)?;
    Ok(all)
}

/// The functions of all sources: those with a body, module by module in the order of their definitions, and then those that no
/// module defines. Each has the specification of its own that a declaration gives it, in which `main_pre` stands for MAIN_PRE;
/// main ends with `return 0;`.
#[tactic(auto, using(crate::proofs::FunctionLemmas::functions_alike))]
pub fn linked_functions(
    alloc: Global,
    main_pre: &Precondition,
    modules: &[ModuleSpec],
    units: &[ClightUnit],
) -> Result<LinkedFunctionList, AllocError>
    ensures exact { IfOk result (λ all. all ≡ specs.linked_functions main_pre.now modules.now units.now) }
{
    let owns = owns_of(alloc, main_pre, modules)?;
    functions_with(alloc, &owns, units)
}
