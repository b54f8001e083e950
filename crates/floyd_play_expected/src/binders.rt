ghost use Rattle.std.specs.Prelude.{◌≡◌};
ghost use Rattle.std.specs.Option.{option_copied};
ghost use Rattle.floyd_goal_trees.specs.Contexts.{context_of as context_of_lem};
ghost use Rattle.floyd_play_expected.specs.Binders as expecting;

use floyd_assert_trees::{Binder, Defs, Funspec, Lemma, Pred, SpecTable};
use floyd_clight::{Binding, Expr, Stmt};
use floyd_goal::context_of;
use floyd_goal_trees::{Goal, Mark};
use floyd_text::{Name, Rule};

fn with_of_spec(spec: Option<&Funspec>) -> &[Binder]
    ensures { result.now ≡ expecting.with_of_spec (option_copied spec.entry) }
{
    match spec {
        Some(spec) => spec.with.as_slice(),
        None => &[],
    }
}

fn with_of_lemma(lemma: Option<&Lemma>) -> &[Binder]
    ensures { result.now ≡ expecting.with_of_lemma (option_copied lemma.entry) }
{
    match lemma {
        Some(lemma) => lemma.with.as_slice(),
        None => &[],
    }
}

fn arguments_of(pred: Option<&Pred>) -> &[Binder]
    ensures { result.now ≡ expecting.arguments_of (option_copied pred.entry) }
{
    match pred {
        Some(pred) => pred.arguments.as_slice(),
        None => &[],
    }
}

/// The function that an expression names.
fn function_named(expression: &Expr) -> Option<&Name>
    ensures { option_copied result ≡ expecting.function_named expression.now }
{
    match expression {
        Expr::Var(Binding::File, name, _) => Some(name),
        _ => None,
    }
}

/// The function that a statement calls by its name.
fn called(statement: &Stmt) -> Option<&Name>
    ensures { option_copied result ≡ expecting.called statement.now }
{
    match statement {
        Stmt::Call(_, callee, _) => function_named(callee),
        _ => None,
    }
}

/// The function that the next statement calls by its name.
fn next_called(goal: &Goal) -> Option<&Name>
    ensures { option_copied result ≡ expecting.next_called goal.now }
{
    match goal {
        Goal::Run(run) => match run.rest.first() {
            Some(statement) => called(statement),
            None => None,
        },
        Goal::Entail(_) => None,
        Goal::Pure(_) => None,
    }
}

/// The lemma whose proof by induction the goal stands in.
fn lemma_of_mark(goal: &Goal) -> Option<&Name>
    ensures { option_copied result ≡ expecting.lemma_of_mark (context_of_lem goal.now).mark }
{
    match &context_of(goal).mark {
        Mark::Induction(name, _, _) => Some(name),
        Mark::Plain => None,
        Mark::Start(_) => None,
    }
}

/// The binders whose sorts the terms of a command are to have that names this: the variables of WITH of the specification
/// of the function that the next statement calls, of the SPEC, of the lemma, or of the lemma that is proved by induction,
/// and the arguments of the predicate. There are none where there is no such item, and for other commands.
pub fn expected_binders<'a>(
    rule: Rule,
    goal: &Goal,
    name: &Name,
    defs: &'a Defs,
    specs: &'a SpecTable,
) -> &'a [Binder]
    ensures { result.now ≡ expecting.binders defs.now specs.now rule goal.now name.now }
{
    match rule {
        Rule::ForwardCall => match next_called(goal) {
            Some(name) => with_of_spec(specs.functions.get(name)),
            None => &[],
        },
        Rule::ForwardCallPtr => with_of_spec(specs.items.get(name)),
        Rule::Apply => with_of_lemma(defs.lemmas.get(name)),
        Rule::ApplyIh => match lemma_of_mark(goal) {
            Some(name) => with_of_lemma(defs.lemmas.get(name)),
            None => &[],
        },
        Rule::Fold => arguments_of(defs.preds.get(name)),
        _ => &[],
    }
}
