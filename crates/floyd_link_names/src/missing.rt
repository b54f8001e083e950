//! The earliest name that no module defines.
ghost use Rattle.std.specs.Prelude.{◌≡◌, [], None, IfOk, OnOk};
ghost use Rattle.floyd_link_names.specs.Names.{defined_in as defined_lem};
ghost use Rattle.floyd_link_names.specs.Tables.{with_names};
ghost use Rattle.floyd_link_names.specs.Duplicates.{first_from};
ghost use Rattle.floyd_link_names.specs.DuplicateClauses.{all_names, is_in as is_in_lem};
ghost use Rattle.floyd_link_names.specs.Unresolved as specs;
ghost use Rattle.floyd_link_names.specs.UnresolvedClauses as clauses;

use crate::entries::defined_in;
use crate::refusals::sooner;
use crate::seen::put_names;
use floyd_assert_trees::{Names, Table};
use floyd_clight::{ClightUnit, Variable};
use floyd_link_mentions::mentions_of;
use floyd_specread_trees::{Declaration, DeclarationKind, ModuleSpec};
use floyd_text::{Code, Name, Refusal, Shown};
use std::alloc::{AllocError, Global};

/// The names that all sources define.
pub fn names_of(alloc: Global, units: &[ClightUnit]) -> Result<Names, AllocError>
    ensures { IfOk result (λ names. names ≡ all_names [] units.now) }
{
    let mut names = Table::new(alloc);
    let mut rest = units;
    'units: while let Some((unit, more)) = rest.split_first() {
        let defined = defined_in(alloc, unit)?;
        put_names(&mut names, defined.as_slice())?;
        rest = more;
    }
    Ok(names)
}

fn is_import(declaration: &Declaration) -> bool
    ensures { result ≡ specs.is_import declaration.now.kind }
{
    matches!(
        declaration.kind,
        DeclarationKind::Import | DeclarationKind::ImportBy(_)
    )
}

fn missing_at(declaration: &Declaration) -> Result<Refusal, AllocError>
    ensures { IfOk result (λ r. r ≡ specs.missing_at declaration.now) }
{
    let shown = Shown::Name(declaration.name.share()?);
    Ok(Refusal::at(Code::Unresolved, declaration.place, shown))
}

fn unknown_at(variable: &Variable) -> Result<Refusal, AllocError>
    ensures { IfOk result (λ r. r ≡ specs.unknown_at variable.now) }
{
    let shown = Shown::Name(variable.name.share()?);
    Ok(Refusal::at(Code::Unresolved, variable.place, shown))
}

/// The earliest of one before and those at imports of what is not defined.
fn imports(
    defined: &Names,
    declarations: &[Declaration],
    first: Option<Refusal>,
) -> Result<Option<Refusal>, AllocError>
    ensures { IfOk result (λ r. r ≡ first_from first (clauses.imports_by defined.now declarations.now)) }
{
    let mut found = first;
    let mut rest = declarations;
    'declarations: while let Some((declaration, more)) = rest.split_first() {
        if is_import(declaration) && defined.get(&declaration.name).is_none() {
            found = sooner(found, Some(missing_at(declaration)?));
        }
        rest = more;
    }
    Ok(found)
}

fn is_in(names: &Names, name: &Name) -> bool
    ensures { result ≡ is_in_lem names.now name.now }
{
    names.get(name).is_some()
}

fn is_unknown(defined: &Names, own: &Names, names: &Names, variable: &Variable) -> bool
    ensures { result ≡ clauses.is_unknown_by defined.now own.now names.now variable.now }
{
    !is_in(defined, &variable.name) && (is_in(own, &variable.name) || is_in(names, &variable.name))
}

/// The earliest of one before and those at variables that are mentioned and not defined.
fn variables(
    defined: &Names,
    own: &Names,
    names: &Names,
    all: &[Variable],
    first: Option<Refusal>,
) -> Result<Option<Refusal>, AllocError>
    ensures { IfOk result (λ r. r ≡ first_from first (clauses.variables_by defined.now own.now names.now all.now)) }
{
    let mut found = first;
    let mut rest = all;
    'variables: while let Some((variable, more)) = rest.split_first() {
        if is_unknown(defined, own, names, variable) {
            found = sooner(found, Some(unknown_at(variable)?));
        }
        rest = more;
    }
    Ok(found)
}

/// The same of a source.
#[tactic(auto, using(crate::proofs::UnresolvedLemmas::unit_alike))]
fn of_unit(
    alloc: Global,
    defined: &Names,
    unit: &ClightUnit,
    names: &Names,
    first: Option<Refusal>,
) -> Result<Option<Refusal>, AllocError>
    ensures { IfOk result (λ r. r ≡ first_from first (clauses.unit_by defined.now unit.now names.now)) }
{
    let own = mentions_of(alloc, unit)?;
    variables(defined, &own, names, unit.variables.as_slice(), first)
}

/// The same of all modules.
fn of_all(
    alloc: Global,
    defined: &Names,
    units: &[ClightUnit],
    modules: &[ModuleSpec],
    mentioned: &[Names],
) -> Result<Option<Refusal>, AllocError>
    ensures { IfOk result (λ r. r ≡ clauses.all_by None defined.now units.now modules.now mentioned.now) }
{
    let mut found = None;
    let mut sources = units;
    let mut specs = modules;
    let mut lists = mentioned;
    'modules: while let Some((unit, more_units)) = sources.split_first() {
        let Some((module, more_modules)) = specs.split_first() else {
            return Ok(found);
        };
        let Some((names, more_lists)) = lists.split_first() else {
            return Ok(found);
        };
        found = of_unit(alloc, defined, unit, names, found)?;
        found = imports(defined, module.declarations.as_slice(), found)?;
        sources = more_units;
        specs = more_modules;
        lists = more_lists;
    }
    Ok(found)
}

/// The refusal, if there is one, at the earliest import that no module defines, or variable that no module defines and that a
/// source mentions, or its specification file under `gv`: these are the names there.
#[tactic(auto, using(crate::proofs::UnresolvedLemmas::found_with_tables))]
pub fn unresolved(
    alloc: Global,
    units: &[ClightUnit],
    modules: &[ModuleSpec],
    mentioned: &[Names],
) -> Result<Option<Refusal>, AllocError>
    ensures exact { IfOk result (λ r. r ≡ specs.unresolved units.now modules.now mentioned.now) }
{
    let defined = names_of(alloc, units)?;
    of_all(alloc, &defined, units, modules, mentioned)
}
