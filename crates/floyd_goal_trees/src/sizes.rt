ghost use Rattle.std.specs.Prelude.{◌≡◌, ◌-◌, ◌^◌, min};
ghost use Rattle.floyd_goal_trees.specs.Sizes.{context_size, exit_size, exits_size, goal_size, return_size, value_size};

use crate::context::Context;
use crate::exits::{Exit, Exits, Return};
use crate::goal::Goal;
use floyd_assert_trees::{assertion_size, props_size};
use floyd_tree::{Term, formula_size, size};

/// The size of a goal as a tree, at least 1, or the greatest number there is.
pub fn goal_size(goal: &Goal) -> u64
    ensures { result ≡ min (goal_size goal.now) (2 ^ 64 - 1) }
{
    let nodes = match goal {
        Goal::Run(run) => context_size(&run.context)
            .saturating_add(assertion_size(run.source.get()))
            .saturating_add(exits_size(run.exits.get())),
        Goal::Entail(entail) => context_size(&entail.context)
            .saturating_add(assertion_size(entail.source.get()))
            .saturating_add(assertion_size(entail.target.get())),
        Goal::Pure(pure) => {
            context_size(&pure.context).saturating_add(u64::from(formula_size(&pure.target)))
        }
    };
    nodes.max(1)
}

fn context_size(context: &Context) -> u64
    ensures { result ≡ min (context_size context.now) (2 ^ 64 - 1) }
{
    props_size(context.hypotheses.get().as_slice())
}

fn exits_size(exits: &Exits) -> u64
    ensures { result ≡ min (exits_size exits.now) (2 ^ 64 - 1) }
{
    exit_size(&exits.normal)
        .saturating_add(exit_size(&exits.brk))
        .saturating_add(exit_size(&exits.cont))
        .saturating_add(return_size(&exits.ret))
}

fn exit_size(exit: &Exit) -> u64
    ensures { result ≡ min (exit_size exit.now) (2 ^ 64 - 1) }
{
    match exit {
        Exit::None => 0,
        Exit::To(assertion) => assertion_size(assertion.get()),
        Exit::End => 0,
    }
}

fn return_size(ret: &Return) -> u64
    ensures { result ≡ min (return_size ret.now) (2 ^ 64 - 1) }
{
    assertion_size(ret.post.get()).saturating_add(value_size(&ret.value))
}

fn value_size(value: &Option<Term>) -> u64
    ensures { result ≡ value_size value.now }
{
    match value {
        None => 0,
        Some(term) => u64::from(size(term)),
    }
}
