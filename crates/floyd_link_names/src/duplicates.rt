//! The earliest name that is declared or defined once too often.
ghost use Rattle.std.specs.Prelude.{◌≡◌, [], None, IfOk, OnOk, is_some};
ghost use Rattle.std.specs.Map.{lookup};
ghost use Rattle.floyd_link_names.specs.Names.{declared_in as declared_lem, defined_in as defined_lem};
ghost use Rattle.floyd_link_names.specs.Tables.{with_names, with_types};
ghost use Rattle.floyd_link_names.specs.Duplicates as specs;
ghost use Rattle.floyd_link_names.specs.DuplicateClauses as clauses;

use crate::entries::{Entry, declared_in, defined_in};
use crate::refusals::sooner;
use crate::seen::{put_names, put_types};
use floyd_assert_trees::{Names, Table};
use floyd_clight::ClightUnit;
use floyd_ctypes::CType;
use floyd_elab_names::same_type;
use floyd_specread_trees::{Declaration, DeclarationKind, ModuleSpec};
use floyd_text::{Code, Refusal, Shown};
use std::alloc::{AllocError, Global};

fn duplicate_at(entry: &Entry) -> Result<Refusal, AllocError>
    ensures { IfOk result (λ r. r ≡ specs.duplicate_at entry.now) }
{
    let shown = Shown::Name(entry.name.share()?);
    Ok(Refusal::at(Code::Duplicate, entry.place, shown))
}

fn is_in(names: &Names, entry: &Entry) -> bool
    ensures { result ≡ clauses.is_in names.now entry.now.name }
{
    names.get(&entry.name).is_some()
}

/// The earliest of one before and those at the entries that are defined already.
fn again(
    defined: &Names,
    entries: &[Entry],
    first: Option<Refusal>,
) -> Result<Option<Refusal>, AllocError>
    ensures { IfOk result (λ r. r ≡ specs.first_from first (clauses.again_by defined.now entries.now)) }
{
    let mut found = first;
    let mut rest = entries;
    'entries: while let Some((entry, more)) = rest.split_first() {
        if is_in(defined, entry) {
            found = sooner(found, Some(duplicate_at(entry)?));
        }
        rest = more;
    }
    Ok(found)
}

/// Whether the name is there with another type.
fn differs(types: &Table<CType>, entry: &Entry) -> bool
    ensures { result ≡ clauses.differs_by types.now entry.now }
{
    match types.get(&entry.name) {
        None => false,
        Some(ctype) => !same_type(&entry.ctype, ctype),
    }
}

/// The earliest of one before and those at the entries that are declared with another type.
fn otherwise(
    types: &Table<CType>,
    entries: &[Entry],
    first: Option<Refusal>,
) -> Result<Option<Refusal>, AllocError>
    ensures { IfOk result (λ r. r ≡ specs.first_from first (clauses.otherwise_by types.now entries.now)) }
{
    let mut found = first;
    let mut rest = entries;
    'entries: while let Some((entry, more)) = rest.split_first() {
        if differs(types, entry) {
            found = sooner(found, Some(duplicate_at(entry)?));
        }
        rest = more;
    }
    Ok(found)
}

/// The earliest of one before and those of a source. Then what it declares and defines is there too.
fn of_source(
    alloc: Global,
    types: &mut Table<CType>,
    names: &mut Names,
    unit: &ClightUnit,
    first: Option<Refusal>,
) -> Result<Option<Refusal>, AllocError>
    ensures found { IfOk result (λ r. r ≡ clauses.source_by first types.old names.old unit.now) }
    ensures types { OnOk result (types.new ≡ with_types (declared_lem unit.now) types.old) }
    ensures names { OnOk result (names.new ≡ with_names (defined_lem unit.now) names.old) }
{
    let declared = declared_in(alloc, unit)?;
    let defined = defined_in(alloc, unit)?;
    let found = again(names, defined.as_slice(), first)?;
    let found = otherwise(types, declared.as_slice(), found)?;
    put_types(alloc, types, declared.as_slice())?;
    put_names(names, defined.as_slice())?;
    Ok(found)
}

/// The earliest of the sources, and the names that they define.
fn of_sources(
    alloc: Global,
    names: &mut Names,
    units: &[ClightUnit],
) -> Result<Option<Refusal>, AllocError>
    ensures found { IfOk result (λ r. r ≡ clauses.sources_by None [] names.old units.now) }
    ensures names { OnOk result (names.new ≡ clauses.all_names names.old units.now) }
{
    let mut types = Table::new(alloc);
    let mut found = None;
    let mut rest = units;
    'units: while let Some((unit, more)) = rest.split_first() {
        found = of_source(alloc, &mut types, names, unit, found)?;
        rest = more;
    }
    Ok(found)
}

fn is_extern(declaration: &Declaration) -> bool
    ensures { result ≡ specs.is_extern declaration.now.kind }
{
    matches!(declaration.kind, DeclarationKind::Extern)
}

fn declared_at(declaration: &Declaration) -> Result<Refusal, AllocError>
    ensures { IfOk result (λ r. r ≡ specs.declared_at declaration.now) }
{
    let shown = Shown::Name(declaration.name.share()?);
    Ok(Refusal::at(Code::Duplicate, declaration.place, shown))
}

/// The earliest of one before and those at the names in EXTERN of what is defined.
fn externs(
    names: &Names,
    declarations: &[Declaration],
    first: Option<Refusal>,
) -> Result<Option<Refusal>, AllocError>
    ensures { IfOk result (λ r. r ≡ specs.first_from first (clauses.externs_by names.now declarations.now)) }
{
    let mut found = first;
    let mut rest = declarations;
    'declarations: while let Some((declaration, more)) = rest.split_first() {
        if is_extern(declaration) && names.get(&declaration.name).is_some() {
            found = sooner(found, Some(declared_at(declaration)?));
        }
        rest = more;
    }
    Ok(found)
}

/// The same of all modules.
fn of_modules(
    names: &Names,
    modules: &[ModuleSpec],
    first: Option<Refusal>,
) -> Result<Option<Refusal>, AllocError>
    ensures { IfOk result (λ r. r ≡ clauses.modules_by first names.now modules.now) }
{
    let mut found = first;
    let mut rest = modules;
    'modules: while let Some((module, more)) = rest.split_first() {
        found = externs(names, module.declarations.as_slice(), found)?;
        rest = more;
    }
    Ok(found)
}

/// The refusal, if there is one, at the earliest name that is defined twice, declared with two types, or EXTERN and defined.
///
/// The modules come in the order of the project, each with its source and its specification.
#[tactic(auto, using(crate::proofs::DuplicateLemmas::found_with_tables))]
pub fn duplicate(
    alloc: Global,
    units: &[ClightUnit],
    modules: &[ModuleSpec],
) -> Result<Option<Refusal>, AllocError>
    ensures exact { IfOk result (λ r. r ≡ specs.duplicate units.now modules.now) }
{
    let mut names = Table::new(alloc);
    let found = of_sources(alloc, &mut names, units)?;
    of_modules(&names, modules, found)
}
