ghost use Rattle.std.specs.Prelude.{◌≡◌, IfOk, position, not, slice_get};
ghost use Rattle.std.specs.Option.{unwrap_or};
ghost use Rattle.floyd_predicates.specs.WellFormed.{call_refusal as call_refusal_lem, clash as clash_lem, is_before as is_before_lem, is_clash as is_clash_lem, not_structural as not_structural_lem, sooner as sooner_lem, stands_before as stands_before_lem};

use floyd_assert_trees::Defs;
use floyd_text::{Code, Name, Place, Refusal, Shown};
use std::alloc::AllocError;

/// Whether the first place stands before the second.
pub fn is_before(p: Place, q: Place) -> bool
    ensures { result ≡ is_before_lem p q }
{
    let in_line = p.line < q.line || (p.line == q.line && p.column < q.column);
    p.file < q.file || (p.file == q.file && in_line)
}

/// Whether there is an item, and its place stands before the other.
fn stands_before(p: Option<Place>, q: Place) -> bool
    ensures { result ≡ stands_before_lem p q }
{
    match p {
        None => false,
        Some(p) => is_before(p, q),
    }
}

/// Whether an item of that name stands before the place.
pub fn is_clash(defs: &Defs, name: &Name, place: Place) -> bool
    ensures { result ≡ is_clash_lem defs.now name.now place }
{
    let of_fun = defs.funs.get(name).map(|item| item.place);
    let of_pred = defs.preds.get(name).map(|item| item.place);
    let of_lemma = defs.lemmas.get(name).map(|item| item.place);
    let among_preds = stands_before(of_pred, place) || stands_before(of_lemma, place);
    stands_before(of_fun, place) || among_preds
}

/// The refusal of an item that does not recur on parts of its first argument.
pub fn not_structural(place: Place, name: &Name) -> Result<Refusal, AllocError>
    ensures { IfOk result (λ r. r ≡ not_structural_lem place name.now) }
{
    Ok(Refusal::at(Code::NotStructural, place, Shown::Name(name.share()?)))
}

/// The refusal of an item whose name an earlier one has.
pub fn clash(place: Place, name: &Name) -> Result<Refusal, AllocError>
    ensures { IfOk result (λ r. r ≡ clash_lem place name.now) }
{
    Ok(Refusal::at(Code::Clash, place, Shown::Name(name.share()?)))
}

/// The place of the call of that number, from 0.
fn place_of_call(places: &[Place], call: usize, own: Place) -> Place
    ensures { result ≡ unwrap_or (slice_get places.now call) own }
{
    match places.get(call) {
        Some(place) => *place,
        None => own,
    }
}

fn first_wrong(calls: &[bool]) -> Option<usize>
    ensures { result ≡ position not calls.now }
{
    calls.iter().position(|call| !*call)
}

/// The refusal of the first call that is not on a part of the first argument.
pub fn call_refusal(
    name: &Name,
    place: Place,
    places: &[Place],
    calls: &[bool],
) -> Result<Option<Refusal>, AllocError>
    ensures { IfOk result (λ r. r ≡ call_refusal_lem name.now place places.now calls.now) }
{
    match first_wrong(calls) {
        None => Ok(None),
        Some(call) => {
            let place = place_of_call(places, call, place);
            Ok(Some(not_structural(place, name)?))
        }
    }
}

/// The refusal at the earlier place.
pub fn sooner(first: Option<Refusal>, second: Option<Refusal>) -> Option<Refusal>
    ensures { result ≡ sooner_lem first second }
{
    match first {
        None => second,
        Some(q) => match second {
            None => Some(q),
            Some(r) => {
                if is_before(r.place, q.place) {
                    Some(r)
                } else {
                    Some(q)
                }
            }
        },
    }
}
