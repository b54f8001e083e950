ghost use Rattle.std.specs.Prelude.{◌≡◌};
ghost use Rattle.floyd_text.specs.Gives.{RuleGives};
ghost use Rattle.floyd_stub_entail.specs.Cancel.{cancel_row, cancel as cancel_lem, equation as equation_lem, equations as equations_lem, has_left as has_left_lem};

use floyd_stub_assert::{Formula, FormulaList, Locals, SepList, Term};
use floyd_stub_goal::{Entail, Goal, GoalList, side_goals, wrong_goal};
use floyd_text::{Code, Name, No, RuleStop, Shown};
use sqlite_items::Items;
use std::alloc::Global;

/// The target of an entailment is taken from its source: its memory at once, and its formulas and the equations of its
/// temporaries as a goal.
pub fn do_cancel(alloc: Global, goal: Goal) -> Result<GoalList, RuleStop>
    ensures { RuleGives (λ goals. goals) result (cancel_row goal) }
{
    match goal.into_entail() {
        Some(entail) => cancel(alloc, entail),
        None => Err(RuleStop::No(wrong_goal())),
    }
}

fn cancel(alloc: Global, entail: Entail) -> Result<GoalList, RuleStop>
    ensures { RuleGives (λ goals. goals) result (cancel_lem entail.context entail.source entail.target) }
{
    let equal = equations(alloc, &entail.source.local, &entail.target.local)?;
    if has_left(&entail.source.sep, &entail.target.sep) {
        return Err(RuleStop::No(No {
            code: Code::PartLeft,
            shown: Shown::Part(1),
        }));
    }
    let (context, mut formulas) = entail.into_target();
    formulas.append(equal)?;
    Ok(side_goals(alloc, context, formulas)?)
}

/// For each temporary of the target, that the source's term for it is the target's.
fn equations(alloc: Global, source: &Locals, target: &Locals) -> Result<FormulaList, RuleStop>
    ensures { RuleGives (λ fs. fs) result (equations_lem source.now target.now) }
{
    let mut all = Items::new(alloc);
    'temporaries: for at in 0..target.len() {
        if let Some((name, term)) = target.entry(at) {
            all.push(equation(source, name, term)?)?;
        }
    }
    Ok(all)
}

fn equation(source: &Locals, name: &Name, term: &Term) -> Result<Formula, RuleStop>
    ensures { RuleGives (λ f. f) result (equation_lem source.now name.now term.now) }
{
    match source.get(name) {
        Some(here) => Ok(Formula::Equal(here.share()?, term.share()?)),
        None => Err(RuleStop::No(No {
            code: Code::LocalMissing,
            shown: Shown::Name(name.share()?),
        })),
    }
}

/// Whether the source has memory that the target has not.
fn has_left(source: &SepList, target: &SepList) -> bool
    ensures { result ≡ has_left_lem source.now target.now }
{
    target.is_empty() && !source.is_empty()
}
