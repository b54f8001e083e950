ghost use Rattle.std.specs.Prelude.{◌≡◌, IfOk, OnOk};
ghost use Rattle.floyd_play_scopes.specs.GoalScopes as specs;
ghost use Rattle.floyd_termread_scope.specs.Scopes.{sort_of};

use floyd_assert_trees::Binder;
use floyd_termread_scope::Variables;
use std::alloc::{AllocError, Global};

#[tactic(auto, using(crate::proofs::BindLemmas::none_bound))]
fn none(alloc: Global) -> Variables
    ensures { sort_of result ≡ specs.no_sorts }
{
    Variables::new(alloc)
}

fn bind_one(binder: &Binder, variables: &mut Variables) -> Result<(), AllocError>
    ensures { OnOk result (sort_of variables.new ≡ specs.with_binder binder.now (sort_of variables.old)) }
{
    let name = binder.name.share()?;
    let sort = binder.sort.share()?;
    let _hidden = variables.bind(name, sort)?;
    Ok(())
}

fn bind_all(binders: &[Binder], variables: &mut Variables) -> Result<(), AllocError>
    ensures { OnOk result (sort_of variables.new ≡ specs.with_binders binders.now (sort_of variables.old)) }
{
    let mut rest = binders;
    'binders: while let Some((binder, more)) = rest.split_first() {
        bind_one(binder, variables)?;
        rest = more;
    }
    Ok(())
}

/// The variables of a context with their sorts, found by their names without a walk.
pub fn variables_of(alloc: Global, binders: &[Binder]) -> Result<Variables, AllocError>
    ensures { IfOk result (λ v. sort_of v ≡ specs.sorts_in binders.now) }
{
    let mut variables = none(alloc);
    bind_all(binders, &mut variables)?;
    Ok(variables)
}
