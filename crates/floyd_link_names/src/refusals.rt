//! The earlier of two refusals.
ghost use Rattle.std.specs.Prelude.{◌≡◌};
ghost use Rattle.floyd_predicates.specs.WellFormed.{sooner as sooner_lem};

use floyd_predicates::is_before;
use floyd_text::Refusal;

/// The one of two refusals at the earlier place.
pub fn sooner(first: Option<Refusal>, second: Option<Refusal>) -> Option<Refusal>
    ensures { result ≡ sooner_lem first second }
{
    match first {
        None => second,
        Some(q) => match second {
            None => Some(q),
            Some(r) => {
                if is_before(r.place, q.place) {
                    Some(r)
                } else {
                    Some(q)
                }
            }
        },
    }
}
