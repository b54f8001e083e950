//! Imports with a specification of their own.
ghost use Rattle.std.specs.Prelude.{◌≡◌, ◌++◌, [], IfOk, OnOk};
ghost use Rattle.floyd_link_modules.specs.Modules as specs;

use floyd_assert_trees::{share_parts, share_terms};
use floyd_goal_meaning::{ByList, ImportBy};
use floyd_specread_trees::{By, Declaration, DeclarationKind};
use sqlite_items::Items;
use std::alloc::{AllocError, Global};

fn import_by(alloc: Global, declaration: &Declaration, by: &By) -> Result<ImportBy, AllocError>
    ensures { IfOk result (λ i. i ≡ record { name = declaration.now.name; place = declaration.now.place; terms = by.now.terms; frame = by.now.frame }) }
{
    let name = declaration.name.share()?;
    let terms = share_terms(alloc, by.terms.as_slice())?;
    let frame = share_parts(alloc, by.frame.as_slice())?;
    Ok(ImportBy {
        name,
        place: declaration.place,
        terms,
        frame,
    })
}

fn add_import(alloc: Global, all: &mut ByList, declaration: &Declaration) -> Result<(), AllocError>
    ensures { OnOk result (all.new ≡ all.old ++ specs.by_of declaration.now declaration.now.kind) }
{
    match &declaration.kind {
        DeclarationKind::Plain => Ok(()),
        DeclarationKind::Import => Ok(()),
        DeclarationKind::ImportBy(by) => all.push(import_by(alloc, declaration, by)?),
        DeclarationKind::Extern => Ok(()),
    }
}

/// The imports of a module with a specification of their own, in order.
pub fn imports_of(alloc: Global, declarations: &[Declaration]) -> Result<ByList, AllocError>
    ensures { IfOk result (λ all. all ≡ specs.imports_of declarations.now) }
{
    let mut all = Items::new(alloc);
    let mut rest = declarations;
    'declarations: while let Some((declaration, more)) = rest.split_first() {
        add_import(alloc, &mut all, declaration)?;
        rest = more;
    }
    Ok(all)
}
