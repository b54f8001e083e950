//! Whether goals are such as commands ask for, whatever is defined.
ghost use Rattle.std.specs.Prelude.{◌≡◌, IfOk};
ghost use Rattle.floyd_goal.specs.Goals.{some_left};
ghost use Rattle.tests_pure.specs.Scoped.{IsFound, assertion_known as assertion_known_lem, body_known as body_known_lem, exit_known as exit_known_lem, exits_known as exits_known_lem, goal_known as goal_known_lem, has_locals, has_parts, has_props, hypotheses_known as hypotheses_known_lem, locals_known as locals_known_lem, part_known as part_known_lem, parts_known as parts_known_lem, return_known as return_known_lem, said_known as said_known_lem, target_known as target_known_lem, value_known as value_known_lem};

use crate::known::{all_known, known, term_known};
use floyd_assert_trees::{Assertion, Binder, Local, Sep};
use floyd_goal::{Exit, Exits, Goal, Return, context_of};
use floyd_tree::{Formula, Term};
use std::alloc::{AllocError, Global};

fn some_binder(binders: &[Binder]) -> bool
    ensures { result ≡ some_left binders.now }
{
    !binders.is_empty()
}

fn some_prop(props: &[Formula]) -> bool
    ensures { result ≡ has_props props.now }
{
    !props.is_empty()
}

fn some_local(locals: &[Local]) -> bool
    ensures { result ≡ has_locals locals.now }
{
    !locals.is_empty()
}

fn some_part(parts: &[Sep]) -> bool
    ensures { result ≡ has_parts parts.now }
{
    !parts.is_empty()
}

fn locals_known(locals: &[Local], binders: &[Binder]) -> bool
    ensures { result ≡ locals_known_lem binders.now locals.now }
{
    'locals: for local in locals {
        if !term_known(&local.term, binders) {
            return false;
        }
    }
    true
}

/// A part `TT` or `valid` alone is.
fn part_known(part: &Sep, binders: &[Binder]) -> bool
    ensures { result ≡ part_known_lem binders.now part.now }
{
    match part {
        Sep::Anything => true,
        Sep::Valid(address) => term_known(address, binders),
        _ => false,
    }
}

fn parts_known(parts: &[Sep], binders: &[Binder]) -> bool
    ensures { result ≡ parts_known_lem binders.now parts.now }
{
    'parts: for part in parts {
        if !part_known(part, binders) {
            return false;
        }
    }
    true
}

fn body_known(a: &Assertion, binders: &[Binder]) -> bool
    ensures { result ≡ body_known_lem binders.now a.now }
{
    if some_binder(a.existentials.as_slice()) {
        return !some_local(a.locals.as_slice()) && !some_part(a.parts.as_slice());
    }
    locals_known(a.locals.as_slice(), binders) && parts_known(a.parts.as_slice(), binders)
}

fn assertion_known(a: &Assertion, binders: &[Binder]) -> bool
    ensures { result ≡ assertion_known_lem binders.now a.now }
{
    !some_prop(a.props.as_slice()) && body_known(a, binders)
}

fn exit_known(exit: &Exit, binders: &[Binder]) -> bool
    ensures { result ≡ exit_known_lem binders.now exit.now }
{
    match exit {
        Exit::To(assertion) => assertion_known(assertion.get(), binders),
        _ => true,
    }
}

fn value_known(post: &Assertion, value: &Option<Term>, binders: &[Binder]) -> bool
    ensures { result ≡ value_known_lem binders.now post.now value.now }
{
    match value {
        None => true,
        Some(term) => !some_binder(post.existentials.as_slice()) && term_known(term, binders),
    }
}

fn return_known(r: &Return, binders: &[Binder]) -> bool
    ensures { result ≡ return_known_lem binders.now r.now }
{
    let post = r.post.get();
    assertion_known(post, binders) && value_known(post, &r.value, binders)
}

fn exits_known(exits: &Exits, binders: &[Binder]) -> bool
    ensures { result ≡ exits_known_lem binders.now exits.now }
{
    exit_known(&exits.normal, binders)
        && exit_known(&exits.brk, binders)
        && exit_known(&exits.cont, binders)
        && return_known(&exits.ret, binders)
}

/// Whether the hypotheses are well formed.
fn hypotheses_known(alloc: Global, goal: &Goal) -> Result<bool, AllocError>
    ensures { IfOk result (λ b. b ≡ hypotheses_known_lem goal.now) }
{
    let context = context_of(goal);
    let hypotheses = context.hypotheses.get().as_slice();
    all_known(alloc, hypotheses, context.variables.get().as_slice())
}

/// Whether the target of a Pure goal is well formed.
fn target_known(alloc: Global, goal: &Goal) -> Result<bool, AllocError>
    ensures { IfOk result (λ b. b ≡ target_known_lem goal.now) }
{
    match goal {
        Goal::Pure(pure) => {
            let variables = pure.context.variables.get().as_slice();
            known(alloc, &pure.target, variables)
        }
        _ => Ok(true),
    }
}

fn said_known(goal: &Goal, binders: &[Binder]) -> bool
    ensures { result ≡ said_known_lem binders.now goal.now }
{
    match goal {
        Goal::Run(run) => {
            assertion_known(run.source.get(), binders) && exits_known(run.exits.get(), binders)
        }
        Goal::Entail(entail) => {
            assertion_known(entail.source.get(), binders)
                && assertion_known(entail.target.get(), binders)
        }
        Goal::Pure(_) => true,
    }
}

/// Whether in what a Run or an Entail goal says each variable has the sort of its binder.
fn goal_known(goal: &Goal) -> bool
    ensures { result ≡ goal_known_lem goal.now }
{
    said_known(goal, context_of(goal).variables.get().as_slice())
}

/// What is known of a goal: that its hypotheses are well formed, that the target of a Pure goal is, and that in what another
/// goal says each variable has the sort of its binder.
#[derive(Clone, Copy)]
pub struct Found {
    pub hypotheses: bool,
    pub target: bool,
    pub rest: bool,
}

pub fn found_of(alloc: Global, goal: &Goal) -> Result<Found, AllocError>
    ensures { IfOk result (IsFound goal.now) }
{
    Ok(Found {
        hypotheses: hypotheses_known(alloc, goal)?,
        target: target_known(alloc, goal)?,
        rest: goal_known(goal),
    })
}
