ghost use Rattle.std.specs.Prelude.{◌≡◌, [], IfOk};
ghost use Rattle.floyd_text.specs.Gives.{Gives};
ghost use Rattle.floyd_links.specs.Links.{Links};
ghost use Rattle.floyd_program_soundness.specs.Proofs.{AreImportsSmall};
ghost use Rattle.floyd_soundness.specs.Accepted.{IsSoundProgram};
ghost use Rattle.floyd_soundness.specs.Claims.{AreClaimsOf};
ghost use Rattle.floyd_soundness.specs.Unproved.{judged, refused as refused_lem};

use crate::acceptance::Accepted;
use crate::keys::keys_of;
use crate::missing::{Missing, first_of, missing_of};
use crate::naming::{proved_names, trusted_names};
use floyd_linked::Linked;
use floyd_proved::ProvedList;
use floyd_text::{Code, Halt, Refusal, Shown};
use std::alloc::{AllocError, Global};

fn refused(missing: &Missing) -> Result<Refusal, AllocError>
    ensures { IfOk result (λ r. r ≡ refused_lem missing.now) }
{
    let name = missing.name.share()?;
    Ok(Refusal::at(Code::Unproved, missing.place, Shown::Name(name)))
}

/// Accepts a linked program where each function with a body is declared and proved, and each lemma and each import with a
/// specification of its own is proved. Else the one whose place is first is refused as unproved, and shown by its name.
///
/// Each proof has the start goals of what it is of, stands on what the proofs of its module stand on, with the lemmas that
/// it may use as proved, and those lemmas stand earlier in the list. The proofs of one name are not counted.
pub fn sound(alloc: Global, linked: Linked, proved: ProvedList) -> Result<Accepted, Halt>
    requires links { Links linked }
    requires small { AreImportsSmall linked }
    requires proofs { AreClaimsOf linked [] proved }
    ensures exact { Gives (λ a. tt) result (judged linked proved) }
    ensures is { IfOk result (λ a. a ≡ linked) }
    ensures sound { IfOk result IsSoundProgram }
{
    let keys = keys_of(alloc, &linked, proved.as_slice())?;
    let all = missing_of(alloc, linked.parts(), keys.as_slice())?;
    if let Some(first) = first_of(all.as_slice()) {
        return Err(Halt::Refused(refused(first)?));
    }
    let functions = linked.parts().functions.as_slice();
    let names = proved_names(alloc, functions)?;
    let trusted = trusted_names(alloc, functions)?;
    Ok(Accepted {
        linked,
        proved: names,
        trusted,
    })
}
