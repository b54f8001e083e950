ghost use Rattle.floyd_play_laws.specs.Laws as laws;

use floyd_row_laws::{rows_on_assertions, rows_on_formulas, rows_on_hypotheses, rows_on_memory};

/// Commands keep goals well formed, where each is known to.
pub fn commands_keep_forms()
    ensures { laws.LawfulKeepForms }
{}

/// Start goals that have a derivation hold for every number of steps of the machine.
pub fn derived_goals_hold()
    ensures { laws.DerivedGoalsHold }
{}

/// Each command keeps goals well formed and has a sound row, where those do whose laws stand elsewhere, and what is read is
/// well formed.
pub fn commands_are_lawful()
    ensures { laws.CommandsAreLawful }
{
    rows_on_formulas();
    rows_on_hypotheses();
    rows_on_assertions();
    rows_on_memory();
}
