//! Statements, from their ends: what is behind a declarator says whether its variable's address is taken.
ghost use Rattle.std.specs.Prelude.{◌≡◌, ◌∷◌, [], ◌++◌, ℕ, List, IfOk, OnOk};
ghost use Rattle.floyd_elab_addresses.specs.Addresses.{in_declarators, in_statement};
ghost use Rattle.floyd_elab_addresses.specs.Flags.{block_flags, declarator_flags, statement_flags};
ghost use Rattle.floyd_elab_addresses.specs.PartClauses.{in_all, in_any_case, in_item, flags_of_all, flags_of_cases, flags_of_item};
ghost use Rattle.floyd_elab_addresses.specs.SetClauses.{is_among, Adds};

use crate::flags::Flags;
use crate::taken::Taken;
use floyd_cparse_trees::{BlockItem, CStatement, LocalDeclarator, SwitchCase};
use floyd_elab_names::name_of;
use floyd_text::Name;
use std::alloc::{AllocError, Global};

/// For each declarator of a local variable in a statement, whether `&` is applied to the variable where it is in scope.
/// One without a name counts as one of the empty name. It takes a time that is linear in the statement's size, but for
/// a logarithm where blocks in blocks apply `&` to many variables around them; the nesting bounds the depth of the calls.
pub fn addresses(alloc: Global, body: &CStatement) -> Result<Flags, AllocError>
    ensures { IfOk result (λ flags. flags ≡ statement_flags body.now) }
{
    let mut taken = Taken::new(alloc);
    let mut flags = Flags::new(alloc);
    statement(alloc, body, &mut taken, &mut flags)?;
    Ok(flags)
}

/// The same of the block that has these items.
pub fn block_addresses(alloc: Global, items: &[BlockItem]) -> Result<Flags, AllocError>
    ensures { IfOk result (λ flags. flags ≡ block_flags items.now) }
{
    let mut flags = Flags::new(alloc);
    block(alloc, items, &mut flags)?;
    Ok(flags)
}

#[cycle(statement)]
fn statement(
    alloc: Global,
    s: &CStatement,
    taken: &mut Taken,
    flags: &mut Flags,
) -> Result<(), AllocError>
    ensures taken { OnOk result (Adds (λ x. in_statement x s.now) taken.old taken.new) }
    ensures flags { OnOk result (flags.new ≡ statement_flags s.now ++ flags.old) }
{
    match s {
        CStatement::Empty | CStatement::Break | CStatement::Continue => Ok(()),
        CStatement::Effect(e) => taken.expression(e),
        CStatement::Return { value, .. } => taken.optional(value),
        CStatement::Block(items) => {
            let inner = block(alloc, items.as_slice(), flags)?;
            taken.join(inner)
        }
        CStatement::If {
            condition,
            then: body,
            ..
        }
        | CStatement::While {
            condition,
            body,
            ..
        } => {
            taken.expression(condition)?;
            statement(alloc, body.get(), taken, flags)
        }
        CStatement::IfElse {
            condition,
            then,
            otherwise,
            ..
        } => {
            taken.expression(condition)?;
            statement(alloc, otherwise.get(), taken, flags)?;
            statement(alloc, then.get(), taken, flags)
        }
        CStatement::Do {
            body,
            condition,
            ..
        } => {
            statement(alloc, body.get(), taken, flags)?;
            taken.expression(condition)
        }
        CStatement::For {
            first,
            condition,
            third,
            body,
            ..
        } => {
            taken.optional(first)?;
            taken.optional(condition)?;
            taken.optional(third)?;
            statement(alloc, body.get(), taken, flags)
        }
        CStatement::Switch { value, cases, .. } => {
            taken.expression(value)?;
            switch_cases(alloc, cases.as_slice(), taken, flags)
        }
    }
}

#[cycle(statement)]
fn switch_cases(
    alloc: Global,
    cases: &[SwitchCase],
    taken: &mut Taken,
    flags: &mut Flags,
) -> Result<(), AllocError>
    ensures taken { OnOk result (Adds (λ x. in_any_case x cases.now) taken.old taken.new) }
    ensures flags { OnOk result (flags.new ≡ flags_of_cases cases.now ++ flags.old) }
{
    'cases: for i in (0..cases.len()).rev() {
        statement(alloc, cases[i].body.get(), taken, flags)?;
    }
    Ok(())
}

/// The names whose address is taken in a block, but for those of its own variables.
#[cycle(statement)]
fn block(alloc: Global, items: &[BlockItem], flags: &mut Flags) -> Result<Taken, AllocError>
    ensures taken { IfOk result (λ taken. (x : List ℕ) → is_among taken x ≡ in_all x items.now) }
    ensures flags { OnOk result (flags.new ≡ flags_of_all items.now ++ flags.old) }
{
    let mut taken = Taken::new(alloc);
    'items: for i in (0..items.len()).rev() {
        item(alloc, &items[i], &mut taken, flags)?;
    }
    Ok(taken)
}

#[cycle(statement)]
fn item(
    alloc: Global,
    item: &BlockItem,
    taken: &mut Taken,
    flags: &mut Flags,
) -> Result<(), AllocError>
    ensures taken { OnOk result ((x : List ℕ) → is_among taken.new x ≡ in_item x item.now (is_among taken.old x)) }
    ensures flags { OnOk result (flags.new ≡ flags_of_item item.now (is_among taken.old) ++ flags.old) }
{
    match item {
        BlockItem::Declaration(d) => { declarators(alloc, d.declarators.as_slice(), taken, flags) }
        BlockItem::Statement(s) => statement(alloc, s, taken, flags),
    }
}

fn declarators(
    alloc: Global,
    all: &[LocalDeclarator],
    taken: &mut Taken,
    flags: &mut Flags,
) -> Result<(), AllocError>
    ensures taken { OnOk result ((x : List ℕ) → is_among taken.new x ≡ in_declarators x all.now (is_among taken.old x)) }
    ensures flags { OnOk result (flags.new ≡ declarator_flags all.now (is_among taken.old) ++ flags.old) }
{
    'declarators: for i in (0..all.len()).rev() {
        declarator(alloc, &all[i], taken, flags)?;
    }
    Ok(())
}

fn declarator(
    alloc: Global,
    d: &LocalDeclarator,
    taken: &mut Taken,
    flags: &mut Flags,
) -> Result<(), AllocError>
    ensures taken { OnOk result ((x : List ℕ) → is_among taken.new x ≡ in_declarators x (d.now ∷ []) (is_among taken.old x)) }
    ensures flags { OnOk result (flags.new ≡ declarator_flags (d.now ∷ []) (is_among taken.old) ++ flags.old) }
{
    taken.initialiser(&d.initialiser)?;
    match name_of(&d.declarator) {
        Some(identifier) => {
            flags.push_first(taken.contains(&identifier.name))?;
            taken.remove(&identifier.name);
            Ok(())
        }
        None => {
            let nameless = Name::from_slice(alloc, &[])?;
            flags.push_first(taken.contains(&nameless))
        }
    }
}
