ghost use Rattle.std.specs.Prelude.{◌≡◌, ◌++◌, false, is_some, IfErr, OnOk};
ghost use Rattle.std.specs.List.{list_any};
ghost use Rattle.std.specs.Option.{option_copied};
ghost use Rattle.floyd_entail_cancel.specs.Cancel.{equation_to as equation_to_lem, equations as equations_lem, first_missing as first_missing_lem, value_of as value_of_lem};
ghost use Rattle.floyd_goal_parts.specs.Writing.{StopsAs, all_written, is_faulty};
ghost use Rattle.floyd_text.specs.Gives.{RuleGives};

use floyd_assert::Local;
use floyd_goal_parts::equation;
use floyd_text::{Name, RuleStop, Steps};
use floyd_tree::{FormulaList, Term};
use std::alloc::Global;
use std::sync::ledger::Ledger;

/// The value of a temporary.
fn value_of<'a>(locals: &'a [Local], name: &Name) -> Option<&'a Term>
    ensures { option_copied result ≡ value_of_lem locals.now name.now }
{
    'locals: for local in locals {
        if name == &local.name {
            return Some(&local.term);
        }
    }
    None
}

fn has_value(locals: &[Local], name: &Name) -> bool
    ensures { result ≡ is_some (value_of_lem locals.now name.now) }
{
    match value_of(locals, name) {
        Some(_) => true,
        None => false,
    }
}

/// The first of the target's temporaries of which the source says nothing.
pub(crate) fn first_missing<'a>(source: &[Local], target: &'a [Local]) -> Option<&'a Name>
    ensures { option_copied result ≡ first_missing_lem source.now target.now }
{
    'locals: for local in target {
        if !has_value(source, &local.name) {
            return Some(&local.name);
        }
    }
    None
}

/// Puts at the end that the value is the term, where there is a value.
fn push_equation<L: Ledger>(
    alloc: Global,
    all: &mut FormulaList,
    value: Option<&Term>,
    term: &Term,
    steps: &mut Steps<L>,
) -> Result<(), RuleStop>
    ensures ok { OnOk result (all.new ≡ all.old ++ equation_to_lem (option_copied value.entry) term.now) }
    ensures fine { OnOk result (list_any is_faulty (equation_to_lem (option_copied value.entry) term.now) ≡ false) }
    ensures err { IfErr result (λ stop. StopsAs stop (list_any is_faulty (equation_to_lem (option_copied value.entry) term.now))) }
{
    if let Some(value) = value {
        let same = equation(alloc, value, term, steps)?;
        all.push(same)?;
    }
    Ok(())
}

/// That the target's temporaries have in the source the values that they have in the target.
pub(crate) fn equations<L: Ledger>(
    alloc: Global,
    source: &[Local],
    target: &[Local],
    steps: &mut Steps<L>,
) -> Result<FormulaList, RuleStop>
    ensures exact { RuleGives (λ fs. fs) result (all_written (equations_lem source.now target.now)) }
{
    let mut all = FormulaList::new(alloc);
    'locals: for local in target {
        let value = value_of(source, &local.name);
        push_equation(alloc, &mut all, value, &local.term, steps)?;
    }
    Ok(all)
}
