ghost use Rattle.std.specs.Prelude.{◌≡◌};
ghost use Rattle.floyd_text.specs.declared.refusal.RuleStop.TheVariants as r;

use floyd_text::{Code, No, RuleStop, Shown};

pub fn refused(code: Code, shown: Shown) -> RuleStop
    ensures { result ≡ r.No (record { code = code; shown = shown }) }
{
    RuleStop::No(No { code, shown })
}
