//! What commands answer.
use floyd_assert::Defs;
use floyd_control::{do_forward_if, do_forward_loop, do_forward_switch, do_forward_while};
use floyd_forward::do_forward;
use floyd_goal::{Args, Goal, GoalList};
use floyd_text::{RuleStop, Steps};
use std::alloc::Global;
use std::sync::ledger::Ledger;
use tests_goals::no_specs;
use tests_terms::Stop;

/// What a command answers.
pub type Answer = Result<GoalList, RuleStop>;

/// What the command of that word answers.
pub fn answer_of<L: Ledger>(
    alloc: Global,
    word: &str,
    goal: &Goal,
    args: &Args,
    defs: &Defs,
    steps: &mut Steps<L>,
) -> Result<Answer, Stop> {
    let specs = &no_specs(alloc);
    match word {
        "forward" => Ok(do_forward(alloc, goal, args, defs, specs, steps)),
        "forward_if" => Ok(do_forward_if(alloc, goal, args, defs, specs, steps)),
        "forward_while" => Ok(do_forward_while(alloc, goal, args, defs, specs, steps)),
        "forward_loop" => Ok(do_forward_loop(alloc, goal, args, defs, specs, steps)),
        "forward_switch" => Ok(do_forward_switch(alloc, goal, args, defs, specs, steps)),
        _ => Err(Stop::Unreadable),
    }
}
