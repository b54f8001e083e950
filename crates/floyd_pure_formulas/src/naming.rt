ghost use Rattle.std.specs.Prelude.{◌≡◌, IfOk};
ghost use Rattle.floyd_assert_changes.specs.Changed.{has_name as has_name_lem};
ghost use Rattle.floyd_pure_formulas.specs.Naming.{taken as taken_lem, variable as variable_lem};

use floyd_assert_trees::Binder;
use floyd_text::{Code, Name, No, Shown, Steps};
use floyd_tree::{Head, MakeStop, Sort, Term, make};
use std::alloc::{AllocError, Global};
use std::sync::ledger::Ledger;

/// Whether one of the binders has that name.
pub fn has_name(name: &Name, binders: &[Binder]) -> bool
    ensures { result ≡ has_name_lem name.now binders.now }
{
    'binders: for binder in binders {
        if *name == binder.name {
            return true;
        }
    }
    false
}

/// The refusal of a name that a variable has.
pub fn taken(x: &Name) -> Result<No, AllocError>
    ensures { IfOk result (λ no. no ≡ taken_lem x.now) }
{
    Ok(No {
        code: Code::NameTaken,
        shown: Shown::Name(x.share()?),
    })
}

/// The variable of that name and sort as a term.
pub fn variable<L: Ledger>(
    alloc: Global,
    x: &Name,
    s: &Sort,
    steps: &mut Steps<L>,
) -> Result<Term, AllocError>
    ensures { IfOk result (λ t. t ≡ variable_lem x.now s.now) }
{
    let head = Head::Variable(x.share()?, s.share()?);
    match make(alloc, head, &[], steps) {
        Ok(term) => Ok(term),
        Err(MakeStop::IllSorted) => unreachable!(),
        Err(MakeStop::TooLarge) => unreachable!(),
        Err(MakeStop::Memory) => Err(AllocError),
    }
}
