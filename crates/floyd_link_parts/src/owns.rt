//! The specifications of their own that functions have.
ghost use Rattle.std.specs.Prelude.{◌≡◌, [], IfOk, OnOk, List, ℕ, bytes_eq};
ghost use Rattle.std.specs.Map.{lookup};
ghost use Rattle.floyd_specread_trees.specs.Views.{has_own as has_own_lem, spec_with as spec_with_lem};
ghost use Rattle.floyd_link_parts.specs.Parts as specs;
ghost use Rattle.floyd_link_parts.specs.PartClauses as clauses;

use crate::sharing::{share_post, share_pre};
use floyd_assert_trees::{Funspec, Precondition, Table, TypeList, share_binders};
use floyd_specread_sources::put_new;
use floyd_specread_trees::{Declaration, DeclarationKind, ModuleSpec};
use floyd_text::{Name, Shared};
use floyd_tree::AType;
use sqlite_items::Items;
use std::alloc::{AllocError, Global};

fn share_types(alloc: Global, types: &[AType]) -> Result<TypeList, AllocError>
    ensures { IfOk result (λ all. all ≡ types.now) }
{
    let mut all = Items::new(alloc);
    'types: for ty in types {
        all.push(ty.share(alloc)?)?;
    }
    Ok(all)
}

fn share_name(name: &Option<Name>) -> Result<Option<Name>, AllocError>
    ensures { IfOk result (λ n. n ≡ name.now) }
{
    match name {
        None => Ok(None),
        Some(name) => Ok(Some(name.share()?)),
    }
}

/// The specification with another precondition.
pub fn with_pre(alloc: Global, spec: &Funspec, pre: &Precondition) -> Result<Funspec, AllocError>
    ensures { IfOk result (λ s. s ≡ record spec.now { pre = pre.now }) }
{
    let name = share_name(&spec.name)?;
    let with = share_binders(alloc, spec.with.as_slice())?;
    let params = share_types(alloc, spec.params.as_slice())?;
    let result_type = spec.result.share(alloc)?;
    let pre = share_pre(alloc, pre)?;
    let post = share_post(alloc, &spec.post)?;
    Ok(Funspec {
        name,
        with,
        params,
        result: result_type,
        pre,
        post,
    })
}

/// The specification of a declaration, in which this stands for MAIN_PRE.
pub fn spec_with(
    alloc: Global,
    main_pre: &Precondition,
    declaration: &Declaration,
) -> Result<Shared<Funspec>, AllocError>
    ensures { IfOk result (λ s. s ≡ spec_with_lem main_pre.now declaration.now) }
{
    if !declaration.main_pre {
        return declaration.spec.share();
    }
    let spec = with_pre(alloc, declaration.spec.get(), main_pre)?;
    Shared::new(alloc, spec)
}

fn has_own(kind: &DeclarationKind) -> bool
    ensures { result ≡ has_own_lem kind.now }
{
    matches!(kind, DeclarationKind::Plain | DeclarationKind::Extern)
}

fn put_own(
    alloc: Global,
    main_pre: &Precondition,
    table: &mut Table<Shared<Funspec>>,
    declaration: &Declaration,
) -> Result<(), AllocError>
    ensures { OnOk result (table.new ≡ clauses.with_own main_pre.now declaration.now table.old) }
{
    if !has_own(&declaration.kind) {
        return Ok(());
    }
    let name = declaration.name.share()?;
    let spec = spec_with(alloc, main_pre, declaration)?;
    put_new(table, name, spec)
}

fn put_owns(
    alloc: Global,
    main_pre: &Precondition,
    table: &mut Table<Shared<Funspec>>,
    declarations: &[Declaration],
) -> Result<(), AllocError>
    ensures { OnOk result (table.new ≡ clauses.with_owns main_pre.now declarations.now table.old) }
{
    let mut rest = declarations;
    'declarations: while let Some((declaration, more)) = rest.split_first() {
        put_own(alloc, main_pre, table, declaration)?;
        rest = more;
    }
    Ok(())
}

fn table_of(
    alloc: Global,
    main_pre: &Precondition,
    modules: &[ModuleSpec],
) -> Result<Table<Shared<Funspec>>, AllocError>
    ensures { IfOk result (λ table. table ≡ clauses.with_modules main_pre.now modules.now []) }
{
    let mut table = Table::new(alloc);
    let mut rest = modules;
    'modules: while let Some((module, more)) = rest.split_first() {
        put_owns(alloc, main_pre, &mut table, module.declarations.as_slice())?;
        rest = more;
    }
    Ok(table)
}

/// The specification of its own that each function has, by its name: that of its module's declaration, or of an EXTERN, in
/// which this stands for MAIN_PRE.
#[tactic(auto, using(crate::proofs::PartLemmas::owns_alike))]
pub fn owns_of(
    alloc: Global,
    main_pre: &Precondition,
    modules: &[ModuleSpec],
) -> Result<Table<Shared<Funspec>>, AllocError>
    ensures exact { IfOk result (λ table. (x : List ℕ) → lookup (bytes_eq x) table ≡ specs.own_of main_pre.now modules.now x) }
{
    table_of(alloc, main_pre, modules)
}
