//! The variables among which bodies are read.
ghost use Rattle.std.specs.Prelude.{◌≡◌, IfOk};
ghost use Rattle.floyd_specread_items.specs.VariableClauses as clauses;
ghost use Rattle.floyd_termread_scope.specs.Scopes.{sort_of};

use floyd_assert_trees::{Binder, Pattern};
use floyd_specread_patterns::pattern_binders;
use floyd_termread_assertions::bind_all;
use floyd_termread_scope::Variables;
use std::alloc::{AllocError, Global};

/// The arguments.
pub(crate) fn argument_variables(
    alloc: Global,
    arguments: &[Binder],
) -> Result<Variables, AllocError>
    ensures { IfOk result (λ v. sort_of v ≡ clauses.argument_sorts arguments.now) }
{
    let mut bound = Variables::new(alloc);
    bind_all(arguments, &mut bound)?;
    Ok(bound)
}

/// The arguments and the variables of a pattern, which hide them.
pub(crate) fn case_variables(
    alloc: Global,
    arguments: &[Binder],
    pattern: &Pattern,
) -> Result<Variables, AllocError>
    ensures { IfOk result (λ v. sort_of v ≡ clauses.case_sorts arguments.now pattern.now) }
{
    let mut bound = argument_variables(alloc, arguments)?;
    let binders = pattern_binders(alloc, arguments, pattern)?;
    bind_all(binders.as_slice(), &mut bound)?;
    Ok(bound)
}
