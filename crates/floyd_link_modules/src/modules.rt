//! Modules with what their proofs stand on.
ghost use Rattle.std.specs.Prelude.{◌≡◌, ◌+◌, ◌<◌, ◌^◌, [], IfOk, OnOk, length};
ghost use Rattle.floyd_specread_trees.specs.Views.{functions_with, spec_with as spec_with_lem};
ghost use Rattle.floyd_link_modules.specs.Modules as specs;

use crate::imports::imports_of;
use crate::items::{once_funs, once_lemmas, once_preds, once_specs};
use crate::names::program_names;
use floyd_assert_trees::{Defs, Funspec, Precondition, SpecTable, Table};
use floyd_ctypes::StructTable;
use floyd_goal_meaning::{LinkedFunction, LinkedVariable, Module, ModuleList};
use floyd_link_parts::with_pre;
use floyd_specread_sources::put_new;
use floyd_specread_trees::{Declaration, ModuleSpec};
use floyd_text::Shared;
use sqlite_items::Items;
use std::alloc::{AllocError, Global};

/// What all modules of a program stand on: its structs, variables and functions, and what MAIN_PRE stands for.
#[derive(Clone, Copy)]
pub struct Ground<'a> {
    pub structs: &'a StructTable,
    pub variables: &'a [LinkedVariable],
    pub functions: &'a [LinkedFunction],
    pub main_pre: &'a Precondition,
}

fn module_defs(
    alloc: Global,
    ground: Ground<'_>,
    home: u32,
    defs: &Defs,
) -> Result<Defs, AllocError>
    ensures { IfOk result (λ d. d ≡ specs.module_defs ground.entry.structs.now (specs.program_names ground.entry.variables.now ground.entry.functions.now) home defs.now) }
{
    let structs = ground.structs.share()?;
    let globals = program_names(alloc, ground.variables, ground.functions)?;
    let funs = once_funs(alloc, &defs.funs)?;
    let preds = once_preds(alloc, &defs.preds)?;
    let lemmas = once_lemmas(alloc, &defs.lemmas)?;
    Ok(Defs {
        structs,
        globals,
        funs,
        preds,
        lemmas,
        proved: Table::new(alloc),
        home,
    })
}

fn spec_of(
    alloc: Global,
    main_pre: &Precondition,
    declaration: &Declaration,
) -> Result<Funspec, AllocError>
    ensures { IfOk result (λ s. s ≡ spec_with_lem main_pre.now declaration.now) }
{
    let spec = declaration.spec.get();
    if declaration.main_pre {
        with_pre(alloc, spec, main_pre)
    } else {
        with_pre(alloc, spec, &spec.pre)
    }
}

/// The specifications that a module gives functions, by name, the first of each.
fn functions_of(
    alloc: Global,
    main_pre: &Precondition,
    declarations: &[Declaration],
) -> Result<Table<Funspec>, AllocError>
    ensures { IfOk result (λ table. table ≡ functions_with main_pre.now declarations.now []) }
{
    let mut table = Table::new(alloc);
    let mut rest = declarations;
    'declarations: while let Some((declaration, more)) = rest.split_first() {
        let name = declaration.name.share()?;
        let spec = spec_of(alloc, main_pre, declaration)?;
        put_new(&mut table, name, spec)?;
        rest = more;
    }
    Ok(table)
}

fn module_specs(
    alloc: Global,
    main_pre: &Precondition,
    own: &ModuleSpec,
) -> Result<SpecTable, AllocError>
    ensures { IfOk result (λ t. t ≡ specs.module_specs main_pre.now own.now.declarations own.now.specs) }
{
    let functions = functions_of(alloc, main_pre, own.declarations.as_slice())?;
    let items = once_specs(alloc, own.specs.get())?;
    Ok(SpecTable { functions, items })
}

fn linked_module(
    alloc: Global,
    ground: Ground<'_>,
    home: u32,
    own: &ModuleSpec,
) -> Result<Module, AllocError>
    ensures { IfOk result (λ m. m ≡ specs.linked_module ground.entry.structs.now (specs.program_names ground.entry.variables.now ground.entry.functions.now) ground.entry.main_pre.now home own.now) }
{
    let defs = module_defs(alloc, ground, home, own.defs.get())?;
    let specs = module_specs(alloc, ground.main_pre, own)?;
    let imports = imports_of(alloc, own.declarations.as_slice())?;
    Ok(Module {
        defs: Shared::new(alloc, defs)?,
        specs: Shared::new(alloc, specs)?,
        imports,
    })
}

/// The modules of a program, numbered from 0 in the order of the project: each with the structs and the names of the whole
/// program, its items, the specifications that it gives functions, and its imports with a specification of their own.
pub fn linked_modules(
    alloc: Global,
    ground: Ground<'_>,
    modules: &[ModuleSpec],
) -> Result<ModuleList, AllocError>
    requires { length modules.now < 2 ^ 32 }
    ensures exact { IfOk result (λ all. all ≡ specs.linked_modules ground.entry.structs.now (specs.program_names ground.entry.variables.now ground.entry.functions.now) ground.entry.main_pre.now modules.now) }
{
    let mut all = Items::new(alloc);
    let mut home = 0;
    let mut rest = modules;
    'modules: while let Some((module, more)) = rest.split_first() {
        all.push(linked_module(alloc, ground, home, module)?)?;
        home += 1;
        rest = more;
    }
    Ok(all)
}
