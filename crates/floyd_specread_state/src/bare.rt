//! Items without what they are made of.
ghost use Rattle.std.specs.Prelude.{◌≡◌, IfOk};
ghost use Rattle.floyd_specread_state.specs.States as specs;

use floyd_assert_trees::{
    Binder, Fun, FunBody, Funspec, Postcondition, Precondition, Pred, PredBody, share_binders,
};
use floyd_text::{Place, Shared};
use floyd_tree::{AType, Sort};
use floyd_tree_sorts::Shape;
use sqlite_items::Items;
use std::alloc::{AllocError, Global};

/// Where an item stands: the place of its name, and the number of its module.
#[derive(Clone, Copy)]
pub struct Origin {
    pub place: Place,
    pub home: u32,
}

/// A FUN of these arguments and of this sort.
pub(crate) fn bare_fun(
    alloc: Global,
    origin: Origin,
    arguments: &[Binder],
    sort: &Sort,
) -> Result<Fun, AllocError>
    ensures { IfOk result (λ f. f ≡ specs.bare_fun origin arguments.now sort.now) }
{
    let arguments = share_binders(alloc, arguments)?;
    let sort = sort.share()?;
    Ok(Fun {
        place: origin.place,
        module: origin.home,
        arguments,
        result: sort,
        body: FunBody::Cases(Items::new(alloc)),
        calls: Items::new(alloc),
    })
}

/// A PRED of these arguments.
pub(crate) fn bare_pred(
    alloc: Global,
    origin: Origin,
    arguments: &[Binder],
) -> Result<Pred, AllocError>
    ensures { IfOk result (λ p. p ≡ specs.bare_pred origin arguments.now) }
{
    let arguments = share_binders(alloc, arguments)?;
    Ok(Pred {
        place: origin.place,
        module: origin.home,
        opaque: false,
        arguments,
        body: PredBody::Cases(Items::new(alloc)),
        calls: Items::new(alloc),
    })
}

fn no_precondition(alloc: Global) -> Precondition
    ensures { result ≡ specs.no_precondition }
{
    Precondition {
        props: Items::new(alloc),
        params: Items::new(alloc),
        globals: Items::new(alloc),
        parts: Items::new(alloc),
    }
}

fn no_postcondition(alloc: Global) -> Postcondition
    ensures { result ≡ specs.no_postcondition }
{
    Postcondition {
        existentials: Items::new(alloc),
        props: Items::new(alloc),
        value: None,
        parts: Items::new(alloc),
    }
}

/// A SPEC.
pub(crate) fn bare_spec(alloc: Global) -> Result<Funspec, AllocError>
    ensures { IfOk result (λ s. s ≡ specs.bare_spec) }
{
    let shape = Shared::new(alloc, Shape::Void)?;
    Ok(Funspec {
        name: None,
        with: Items::new(alloc),
        params: Items::new(alloc),
        result: AType::new(shape, Items::new(alloc)),
        pre: no_precondition(alloc),
        post: no_postcondition(alloc),
    })
}
