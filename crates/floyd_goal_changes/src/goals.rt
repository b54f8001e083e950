ghost use Rattle.floyd_goal_changes.specs.Changed.{ContextSortsAgree, EntailSortsAgree, GoalSortsAgree, PureSortsAgree, RunSortsAgree, context_with, entail_with, goal_with, pure_with, run_with};
ghost use Rattle.floyd_text.specs.Gives.{RuleGives};
ghost use Rattle.floyd_truth.specs.Replace.{puts};

use crate::exits::change_exits;
use floyd_assert_changes::{change_assertion, subst_formula, subst_formulas};
use floyd_goal_trees::{Context, Entail, Goal, Pure, Run};
use floyd_text::{Name, RuleStop, Shared, Steps};
use floyd_tree::Term;
use std::alloc::Global;
use std::sync::ledger::Ledger;

/// The context behind a command, with terms in place of variables in its hypotheses.
fn change_context<L: Ledger>(
    alloc: Global,
    context: &Context,
    by: &[(Name, Term)],
    steps: &mut Steps<L>,
) -> Result<Context, RuleStop>
    requires { ContextSortsAgree (puts by.now) context.now }
    ensures exact { RuleGives (λ c. c) result (context_with by.now context.now) }
{
    match subst_formulas(alloc, context.hypotheses.get().as_slice(), by, steps) {
        Ok(hypotheses) => {
            let variables = context.variables.share()?;
            let mark = context.mark.after_command(alloc)?;
            let hypotheses = Shared::new(alloc, hypotheses)?;
            Ok(Context {
                variables,
                hypotheses,
                mark,
            })
        }
        Err(stop) => Err(stop),
    }
}

fn change_run<L: Ledger>(
    alloc: Global,
    run: &Run,
    by: &[(Name, Term)],
    steps: &mut Steps<L>,
) -> Result<Run, RuleStop>
    requires { RunSortsAgree (puts by.now) run.now }
    ensures exact { RuleGives (λ r. r) result (run_with by.now run.now) }
{
    let context = match change_context(alloc, &run.context, by, steps) {
        Ok(context) => context,
        Err(stop) => return Err(stop),
    };
    let source = match change_assertion(alloc, run.source.get(), by, steps) {
        Ok(source) => source,
        Err(stop) => return Err(stop),
    };
    match change_exits(alloc, run.exits.get(), by, steps) {
        Ok(exits) => {
            let source = Shared::new(alloc, source)?;
            let rest = run.rest.share()?;
            let exits = Shared::new(alloc, exits)?;
            Ok(Run {
                context,
                source,
                rest,
                exits,
            })
        }
        Err(stop) => Err(stop),
    }
}

fn change_entail<L: Ledger>(
    alloc: Global,
    entail: &Entail,
    by: &[(Name, Term)],
    steps: &mut Steps<L>,
) -> Result<Entail, RuleStop>
    requires { EntailSortsAgree (puts by.now) entail.now }
    ensures exact { RuleGives (λ e. e) result (entail_with by.now entail.now) }
{
    let context = match change_context(alloc, &entail.context, by, steps) {
        Ok(context) => context,
        Err(stop) => return Err(stop),
    };
    let source = match change_assertion(alloc, entail.source.get(), by, steps) {
        Ok(source) => source,
        Err(stop) => return Err(stop),
    };
    match change_assertion(alloc, entail.target.get(), by, steps) {
        Ok(target) => {
            let source = Shared::new(alloc, source)?;
            let target = Shared::new(alloc, target)?;
            Ok(Entail {
                context,
                source,
                target,
            })
        }
        Err(stop) => Err(stop),
    }
}

fn change_pure<L: Ledger>(
    alloc: Global,
    pure: &Pure,
    by: &[(Name, Term)],
    steps: &mut Steps<L>,
) -> Result<Pure, RuleStop>
    requires { PureSortsAgree (puts by.now) pure.now }
    ensures exact { RuleGives (λ p. p) result (pure_with by.now pure.now) }
{
    let context = match change_context(alloc, &pure.context, by, steps) {
        Ok(context) => context,
        Err(stop) => return Err(stop),
    };
    match subst_formula(alloc, &pure.target, by, steps) {
        Ok(target) => Ok(Pure { context, target }),
        Err(stop) => Err(stop),
    }
}

/// The goal behind a command, with these terms in place of these variables, of all of them at once; of pairs of one name the
/// first counts. The context's variables stay. What has none of the variables is shared, bound names are renamed only where they
/// would capture, and the one refusal is that a term or formula is too large.
pub fn change_goal<L: Ledger>(
    alloc: Global,
    goal: &Goal,
    by: &[(Name, Term)],
    steps: &mut Steps<L>,
) -> Result<Goal, RuleStop>
    requires { GoalSortsAgree (puts by.now) goal.now }
    ensures exact { RuleGives (λ g. g) result (goal_with by.now goal.now) }
{
    match goal {
        Goal::Run(run) => match change_run(alloc, run, by, steps) {
            Ok(run) => Ok(Goal::Run(run)),
            Err(stop) => Err(stop),
        },
        Goal::Entail(entail) => match change_entail(alloc, entail, by, steps) {
            Ok(entail) => Ok(Goal::Entail(entail)),
            Err(stop) => Err(stop),
        },
        Goal::Pure(pure) => match change_pure(alloc, pure, by, steps) {
            Ok(pure) => Ok(Goal::Pure(pure)),
            Err(stop) => Err(stop),
        },
    }
}
