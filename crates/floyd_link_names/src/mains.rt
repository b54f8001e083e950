//! What is asked of main.
ghost use Rattle.std.specs.Prelude.{◌≡◌, None, bytes_eq};
ghost use Rattle.floyd_specread_trees.specs.Views.{is_by as is_by_lem};
ghost use Rattle.std.specs.List.{list_any};
ghost use Rattle.floyd_text.specs.Place.{first_place as first_place_lem};
ghost use Rattle.floyd_link_names.specs.Duplicates.{first_from};
ghost use Rattle.floyd_link_names.specs.Main as specs;
ghost use Rattle.floyd_link_names.specs.MainClauses as clauses;

use crate::refusals::sooner;
use floyd_clight::{ClightUnit, Defined};
use floyd_ctypes::CType;
use floyd_elab_names::same_type;
use floyd_int::IntKind;
use floyd_specread_trees::{Declaration, DeclarationKind, ModuleSpec};
use floyd_text::{Code, Name, Place, Refusal, Shown};

fn is_named_main(name: &Name) -> bool
    ensures { result ≡ bytes_eq specs.main name.now }
{
    b"main".as_slice() == name.as_slice()
}

/// Whether it is `int main(void)`.
pub fn is_main(function: &Defined) -> bool
    ensures { result ≡ specs.is_main function.now }
{
    let int = CType::Int(IntKind::I32);
    is_named_main(&function.name)
        && function.parameters.as_slice().is_empty()
        && same_type(&function.result, &int)
}

fn has_main_in(functions: &[Defined]) -> bool
    ensures { result ≡ list_any specs.is_main functions.now }
{
    let mut rest = functions;
    'functions: while let Some((function, more)) = rest.split_first() {
        if is_main(function) {
            return true;
        }
        rest = more;
    }
    false
}

fn has_main(units: &[ClightUnit]) -> bool
    ensures { result ≡ specs.has_main units.now }
{
    let mut rest = units;
    'units: while let Some((unit, more)) = rest.split_first() {
        if has_main_in(unit.defined.as_slice()) {
            return true;
        }
        rest = more;
    }
    false
}

/// The first place of the project.
fn project_start() -> Place
    ensures { result ≡ first_place_lem 0 }
{
    Place {
        file: 0,
        line: 1,
        column: 1,
    }
}

/// The refusal, if no source defines `int main(void)`.
pub fn no_main(units: &[ClightUnit]) -> Option<Refusal>
    ensures exact { result ≡ specs.no_main units.now }
{
    if has_main(units) {
        return None;
    }
    Some(Refusal::at(Code::NoMain, project_start(), Shown::Nothing))
}

fn is_by(kind: &DeclarationKind) -> bool
    ensures { result ≡ is_by_lem kind.now }
{
    matches!(kind, DeclarationKind::ImportBy(_))
}

fn is_other_main(declaration: &Declaration) -> bool
    ensures { result ≡ specs.is_other_main declaration.now }
{
    is_named_main(&declaration.name) && !is_by(&declaration.kind) && !declaration.main_pre
}

fn other_main_at(declaration: &Declaration) -> Refusal
    ensures { result ≡ specs.other_main_at declaration.now }
{
    Refusal::at(Code::MainPreMissing, declaration.place, Shown::Nothing)
}

/// The earliest of one before and those at declarations of main with another precondition.
fn other_mains(declarations: &[Declaration], first: Option<Refusal>) -> Option<Refusal>
    ensures { result ≡ first_from first (clauses.other_mains declarations.now) }
{
    let mut found = first;
    let mut rest = declarations;
    'declarations: while let Some((declaration, more)) = rest.split_first() {
        if is_other_main(declaration) {
            found = sooner(found, Some(other_main_at(declaration)));
        }
        rest = more;
    }
    found
}

fn of_modules(modules: &[ModuleSpec]) -> Option<Refusal>
    ensures { result ≡ clauses.modules_by None modules.now }
{
    let mut found = None;
    let mut rest = modules;
    'modules: while let Some((module, more)) = rest.split_first() {
        found = other_mains(module.declarations.as_slice(), found);
        rest = more;
    }
    found
}

/// The refusal, if there is one, at the first declaration of main, none with BY, whose precondition is not MAIN_PRE.
#[tactic(auto, using(crate::proofs::MainLemmas::modules_alike))]
pub fn main_pre_missing(modules: &[ModuleSpec]) -> Option<Refusal>
    ensures exact { result ≡ specs.main_pre_missing modules.now }
{
    of_modules(modules)
}
