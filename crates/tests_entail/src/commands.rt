//! What commands answer.
use crate::naming::{opened, put};
use floyd_arrays::{
    do_join_array, do_join_share, do_join_struct, do_split_array, do_split_share, do_split_struct,
};
use floyd_assert::Defs;
use floyd_entail::{do_facts, do_reroot, do_valid, do_weaken};
use floyd_entail_cancel::do_cancel;
use floyd_goal::{Args, Goal, GoalList};
use floyd_text::{RuleStop, Steps};
use std::alloc::Global;
use std::sync::ledger::Ledger;
use tests_goals::no_specs;
use tests_terms::Stop;

/// What a command answers.
pub type Answer = Result<GoalList, RuleStop>;

/// What a command answers that splits or joins parts.
fn on_pieces<L: Ledger>(
    alloc: Global,
    word: &str,
    goal: &Goal,
    args: &Args,
    defs: &Defs,
    steps: &mut Steps<L>,
) -> Result<Answer, Stop> {
    let specs = &no_specs(alloc);
    match word {
        "split_array" => Ok(do_split_array(alloc, goal, args, defs, specs, steps)),
        "join_array" => Ok(do_join_array(alloc, goal, args, defs, specs, steps)),
        "split_struct" => Ok(do_split_struct(alloc, goal, args, defs, specs, steps)),
        "join_struct" => Ok(do_join_struct(alloc, goal, args, defs, specs, steps)),
        "split_share" => Ok(do_split_share(alloc, goal, args, defs, specs, steps)),
        "join_share" => Ok(do_join_share(alloc, goal, args, defs, specs, steps)),
        _ => Err(Stop::Unreadable),
    }
}

/// What the command of that word answers.
pub fn answer_of<L: Ledger>(
    alloc: Global,
    word: &str,
    goal: &Goal,
    args: &Args,
    defs: &Defs,
    steps: &mut Steps<L>,
) -> Result<Answer, Stop> {
    let specs = &no_specs(alloc);
    match word {
        "Intros" => opened(alloc, goal, args, defs, steps),
        "Exists" => put(alloc, goal, args, defs, steps),
        "cancel" => Ok(do_cancel(alloc, goal, args, defs, specs, steps)),
        "weaken" => Ok(do_weaken(alloc, goal, args, defs, specs, steps)),
        "facts" => Ok(do_facts(alloc, goal, args, defs, specs, steps)),
        "valid" => Ok(do_valid(alloc, goal, args, defs, specs, steps)),
        "reroot" => Ok(do_reroot(alloc, goal, args, defs, specs, steps)),
        _ => on_pieces(alloc, word, goal, args, defs, steps),
    }
}
