ghost use Rattle.std.specs.Prelude.{◌≡◌, IfOk};
ghost use Rattle.floyd_shares.specs.Shares.{share_of as share_of_lem, shared as shared_lem, with_share as with_share_lem};
ghost use Rattle.floyd_text.specs.Gives.{RuleGives};

use floyd_assert::{Region, Sep};
use floyd_goal_parts::wrong_goal;
use floyd_text::RuleStop;
use floyd_tree::Term;
use std::alloc::{AllocError, Global};

/// The region with another share.
fn shared(alloc: Global, region: &Region, share: &Term) -> Result<Region, AllocError>
    ensures { IfOk result (λ r. r ≡ shared_lem region.now share.now) }
{
    let share = share.share()?;
    let ty = region.ty.share(alloc)?;
    let path = region.path.share(alloc)?;
    let root = region.root.share()?;
    Ok(Region {
        share,
        ty,
        path,
        root,
    })
}

/// The share of an object or of padding.
pub(crate) fn share_of(part: &Sep) -> Result<&Term, RuleStop>
    ensures exact { RuleGives (λ s. s.now) result (share_of_lem part.now) }
{
    match part {
        Sep::FieldAt(region, _) => Ok(&region.share),
        Sep::Padding(region) => Ok(&region.share),
        Sep::Valid(_) => Err(RuleStop::No(wrong_goal())),
        Sep::Anything => Err(RuleStop::No(wrong_goal())),
        Sep::Predicate(_, _) => Err(RuleStop::No(wrong_goal())),
    }
}

/// The part with another share.
pub(crate) fn with_share(alloc: Global, part: &Sep, share: &Term) -> Result<Sep, AllocError>
    ensures { IfOk result (λ p. p ≡ with_share_lem part.now share.now) }
{
    match part {
        Sep::FieldAt(region, value) => {
            let region = shared(alloc, region, share)?;
            Ok(Sep::FieldAt(region, value.share()?))
        }
        Sep::Padding(region) => Ok(Sep::Padding(shared(alloc, region, share)?)),
        Sep::Valid(address) => Ok(Sep::Valid(address.share()?)),
        Sep::Anything => Ok(Sep::Anything),
        Sep::Predicate(_, _) => part.share(alloc),
    }
}
