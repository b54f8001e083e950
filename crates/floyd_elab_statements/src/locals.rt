//! Declarations of local variables.
ghost use Rattle.std.specs.Prelude.{◌≡◌, [], ◌∷◌, ◌++◌, ℕ, Bool, List, IfOk, OnOk};
ghost use Rattle.floyd_text.specs.Gives.{Gives};
ghost use Rattle.floyd_elab_names.specs.declared.meaning.Meaning.TheVariants.{Variable};
ghost use Rattle.floyd_elab_names.specs.declared.tags.Tags.{Tags as Kept};
ghost use Rattle.floyd_elab_names.specs.Declarators.{name_of as name_of_lem, unless_among};
ghost use Rattle.floyd_elab_names.specs.Scopes.{leave, names_in};
ghost use Rattle.floyd_elab_expressions.specs.Behind.{behind, put_behind};
ghost use Rattle.floyd_elab_addresses.specs.Flags.{declarator_flags};
ghost use Rattle.floyd_elab_statements.specs.Locals.{nowhere as nowhere_lem, name_among as name_among_lem, storage_of as storage_of_lem, add_variable as add_variable_lem, declare_variable as declare_variable_lem, target_of as target_of_lem, initialise as initialise_lem, declarators as declarators_lem};
ghost use Rattle.floyd_elab_statements.specs.LocalClauses.{beginning, declaration as declaration_lem, variable_type as variable_type_lem, variable as variable_lem, targets};

use crate::variables::{OneDeclarator, declare};
use floyd_clight::StmtList;
use floyd_cparse_trees::{CExpr, Declarator, Identifier, LocalDeclaration, LocalDeclarator};
use floyd_ctypes::CType;
use floyd_ctyping::Operand;
use floyd_elab_addresses::Flags;
use floyd_elab_effects::{Destination, assign_first};
use floyd_elab_expressions::{NameList, Progress, Translation, kth_name, variable_of};
use floyd_elab_names::{
    Meaning, Names, Site, Storage, base_type, declarator_type, ill_typed, is_aggregate,
    is_object_type, is_object_within, left_out, limit_site, name_of, name_or_none, name_site,
    redeclared,
};
use floyd_text::{Halt, Name, Place};
use std::alloc::{AllocError, Global};

/// The site of a declarator without a name, which no variable has.
fn nowhere(alloc: Global) -> Result<Site, AllocError>
    ensures { IfOk result (λ s. s ≡ nowhere_lem) }
{
    let place = Place {
        file: 0,
        line: 0,
        column: 0,
    };
    Site::of(&Identifier {
        name: Name::from_slice(alloc, &[])?,
        place,
    })
}

/// What a variable of this name is called, where these were declared before.
fn name_among(alloc: Global, names: &NameList, x: &Name) -> Result<Name, AllocError>
    ensures { IfOk result (λ n. n ≡ name_among_lem names.now x.now) }
{
    let before = names.count(x);
    if before == 0 {
        return x.share();
    }
    match before.checked_add(1) {
        Some(k) => kth_name(alloc, x, k),
        None => Err(AllocError),
    }
}

/// Where a variable is kept. `taken` says whether its address is taken.
fn storage_of(t: &CType, taken: bool) -> Storage
    ensures { result ≡ storage_of_lem t.now taken }
{
    if is_aggregate(t) || taken {
        Storage::Block
    } else {
        Storage::Temporary
    }
}

fn add_variable(storage: Storage, x: Name, t: CType, progress: &mut Progress) -> Result<(), Halt>
    ensures exact { Gives (λ u. (u, progress.new)) result (add_variable_lem storage x t progress.old) }
{
    match storage {
        Storage::Block => progress.add_block(x, t),
        Storage::Global | Storage::Temporary | Storage::Parameter => progress.add_temporary(x, t),
    }
}

/// Refuses a name that the innermost scope has.
fn unless_here(names: &Names, d: &Declarator) -> Result<(), Halt>
    ensures exact { (tags : Kept) → Gives (λ u. (u, tags)) result (unless_among (names_in names.now) (name_of_lem d.now) tags) }
{
    match name_of(d) {
        Some(i) => {
            if names.is_here(&i.name) {
                return Err(Halt::Refused(redeclared(i)?));
            }
            Ok(())
        }
        None => Ok(()),
    }
}

/// The type that a declarator declares a variable of.
fn variable_type(
    alloc: Global,
    names: &Names,
    base: &CType,
    d: &Declarator,
    progress: &mut Progress,
) -> Result<CType, Halt>
    ensures exact { Gives (λ t. (t, progress.new)) result (variable_type_lem names.now base.now d.now progress.old) }
{
    let site = nowhere(alloc)?;
    let t = declarator_type(
        alloc,
        names,
        &mut progress.tags,
        &site,
        base.share(alloc)?,
        d,
    )?;
    if !is_object_within(&progress.tags.structs, &t) {
        return Err(Halt::Refused(left_out(alloc, &limit_site(&site, d)?)?));
    }
    if !is_object_type(&progress.tags.structs, &t) {
        return Err(Halt::Refused(ill_typed(name_site(&site, d)?.place())));
    }
    unless_here(names, d)?;
    Ok(t)
}

/// The variable of that type.
fn variable(
    alloc: Global,
    d: &Declarator,
    t: CType,
    taken: bool,
    progress: &mut Progress,
) -> Result<Meaning, Halt>
    ensures exact { Gives (λ m. (m, progress.new)) result (variable_lem d.now t taken progress.old) }
{
    let x = name_or_none(alloc, d)?;
    let called = name_among(alloc, &progress.names, &x)?;
    let storage = storage_of(&t, taken);
    progress.add_name(&x)?;
    add_variable(storage, called.share()?, t.share(alloc)?, progress)?;
    Ok(Meaning::Variable {
        called,
        ctype: t,
        storage,
    })
}

/// A variable of the type that a declarator declares.
pub(crate) fn declare_variable(
    alloc: Global,
    names: &Names,
    base: &CType,
    d: &Declarator,
    taken: bool,
    progress: &mut Progress,
) -> Result<Meaning, Halt>
    ensures exact { Gives (λ m. (m, progress.new)) result (declare_variable_lem names.now base.now d.now (λ x. taken) progress.old) }
{
    let t = variable_type(alloc, names, base, d, progress)?;
    variable(alloc, d, t, taken, progress)
}

/// A variable as what is assigned to.
fn variable_target(
    alloc: Global,
    storage: Storage,
    called: &Name,
    t: &CType,
) -> Result<Translation, AllocError>
    ensures { IfOk result (λ a. behind [] a ∷ [] ≡ target_of_lem (Variable called.now t.now storage)) }
{
    Ok(Translation {
        expr: variable_of(storage, called.share()?, t.share(alloc)?),
        operand: Operand::object(t.share(alloc)?),
    })
}

/// The variable as what its initial value is assigned to.
pub(crate) fn target_of(alloc: Global, meaning: &Meaning) -> Result<Option<Translation>, AllocError>
    ensures { IfOk result (λ o. targets o ≡ target_of_lem meaning.now) }
{
    match meaning {
        Meaning::Variable {
            called,
            ctype,
            storage,
        } => Ok(Some(variable_target(alloc, *storage, called, ctype)?)),
        Meaning::Type { .. } | Meaning::Function(_) => Ok(None),
    }
}

/// A declaration with an initial value is the assignment at its place.
pub(crate) fn initialise(
    alloc: Global,
    names: &Names,
    target: &Option<Translation>,
    right: &Option<(Place, CExpr)>,
    progress: &mut Progress,
    out: &mut StmtList,
) -> Result<(), Halt>
    ensures exact { Gives (λ u. (out.new, progress.new)) result (put_behind out.old (initialise_lem names.now (targets target.now) right.now progress.old)) }
{
    match target {
        Some(target) => match right {
            Some((place, e)) => {
                let to = Destination {
                    place: *place,
                    target,
                };
                assign_first(alloc, names, to, e, progress, out)
            }
            None => Ok(()),
        },
        None => Ok(()),
    }
}

/// The next flag. Where none is left, no address is taken.
fn next_flag(flags: &mut Flags) -> bool
    ensures { (flag : Bool) (more : List Bool) → flags.old ≡ flag ∷ more → (result ≡ flag) × (flags.new ≡ more) }
{
    match flags.pop_first() {
        Some(flag) => flag,
        None => false,
    }
}

/// The declarators of one base.
#[derive(Clone, Copy)]
struct DeclaratorList<'a> {
    base: &'a CType,
    all: &'a [LocalDeclarator],
}

/// The variables of one base, with their flags before all others. They are in the innermost scope afterwards.
fn declarators(
    alloc: Global,
    parts: DeclaratorList<'_>,
    names: &mut Names,
    flags: &mut Flags,
    progress: &mut Progress,
    out: &mut StmtList,
) -> Result<(), Halt>
    ensures exact { (rest : List ℕ → Bool) (more : List Bool) → flags.old ≡ declarator_flags parts.entry.all.now rest ++ more → Gives (λ u. ((out.new, names.new), progress.new)) result (beginning out.old (declarators_lem names.old parts.entry.base.now parts.entry.all.now rest progress.old)) }
    ensures flags { (rest : List ℕ → Bool) (more : List Bool) → flags.old ≡ declarator_flags parts.entry.all.now rest ++ more → OnOk result (flags.new ≡ more) }
    ensures left { OnOk result (leave names.new ≡ leave names.old) }
{
    'declarators: for declarator in parts.all {
        let one = OneDeclarator {
            declarator,
            base: parts.base,
            taken: next_flag(flags),
        };
        declare(alloc, one, names, progress, out)?;
    }
    Ok(())
}

/// A declaration of variables.
pub(crate) fn declaration(
    alloc: Global,
    d: &LocalDeclaration,
    names: &mut Names,
    flags: &mut Flags,
    progress: &mut Progress,
    out: &mut StmtList,
) -> Result<(), Halt>
    ensures exact { (rest : List ℕ → Bool) (more : List Bool) → flags.old ≡ declarator_flags d.now.declarators rest ++ more → Gives (λ u. ((out.new, names.new), progress.new)) result (beginning out.old (declaration_lem names.old d.now rest progress.old)) }
    ensures flags { (rest : List ℕ → Bool) (more : List Bool) → flags.old ≡ declarator_flags d.now.declarators rest ++ more → OnOk result (flags.new ≡ more) }
    ensures left { OnOk result (leave names.new ≡ leave names.old) }
{
    let site = nowhere(alloc)?;
    let base = base_type(alloc, names, &mut progress.tags, &site, &d.specifiers.base)?;
    let parts = DeclaratorList {
        base: &base,
        all: d.declarators.as_slice(),
    };
    declarators(alloc, parts, names, flags, progress, out)
}
