ghost use Rattle.std.specs.Prelude.{◌≡◌, ◌++◌, IfOk, OnOk};
ghost use Rattle.std.specs.List.{flat_map};
ghost use Rattle.floyd_predicates.specs.Calls.{all_calls, call_at, calls_in, fun_calls as fun_calls_lem, fun_case_calls};
ghost use Rattle.floyd_tree.specs.Plain.{plains};

use crate::recursion::{add_call, parts_of};
use floyd_assert_trees::{FunBody, FunCase};
use floyd_text::Name;
use floyd_tree::{Head, Term, head, kids};
use std::alloc::{AllocError, Global};

fn add_call_at(
    all: &mut Vec<bool>,
    own: &Name,
    parts: &[Name],
    head: &Head,
    terms: &[Term],
) -> Result<(), AllocError>
    ensures { OnOk result (all.new.items ≡ all.old.items ++ call_at own.now parts.now head.now terms.now) }
{
    match head {
        Head::Fun(name, _, _) => add_call(all, own, parts, name, terms),
        _ => Ok(()),
    }
}

/// Adds the calls in a term, each before those in its arguments.
#[cycle(calls)]
#[tactic(auto, using(crate::proofs::CallLemmas::calls_by_parts, floyd_assert_changes::proofs::Heights::heights_below))]
fn add_calls_in(all: &mut Vec<bool>, own: &Name, parts: &[Name], t: &Term) -> Result<(), AllocError>
    ensures { OnOk result (all.new.items ≡ all.old.items ++ calls_in own.now parts.now t.now) }
{
    let terms = kids(t).as_slice();
    add_call_at(all, own, parts, head(t), terms)?;
    add_all_calls(all, own, parts, terms)
}

#[cycle(calls)]
#[tactic(auto, using(floyd_assert_changes::proofs::Heights::height_at))]
fn add_all_calls(
    all: &mut Vec<bool>,
    own: &Name,
    parts: &[Name],
    terms: &[Term],
) -> Result<(), AllocError>
    ensures { OnOk result (all.new.items ≡ all.old.items ++ all_calls own.now parts.now (plains terms.now)) }
{
    'terms: for term in terms {
        add_calls_in(all, own, parts, term)?;
    }
    Ok(())
}

fn case_calls(alloc: Global, own: &Name, cases: &[FunCase]) -> Result<Vec<bool>, AllocError>
    ensures { IfOk result (λ all. all.items ≡ flat_map (fun_case_calls own.now) cases.now) }
{
    let mut all = Vec::new(alloc);
    'cases: for case in cases {
        let parts = parts_of(alloc, &case.pattern)?;
        add_calls_in(&mut all, own, parts.as_slice(), &case.term)?;
    }
    Ok(all)
}

/// The calls that a FUN makes of itself, in the order of the text: whether each is on a part of the first argument.
pub fn fun_calls(alloc: Global, own: &Name, body: &FunBody) -> Result<Vec<bool>, AllocError>
    ensures { IfOk result (λ all. all.items ≡ fun_calls_lem own.now body.now) }
{
    match body {
        FunBody::Whole(term) => {
            let mut all = Vec::new(alloc);
            add_calls_in(&mut all, own, &[], term)?;
            Ok(all)
        }
        FunBody::Cases(cases) => case_calls(alloc, own, cases.as_slice()),
    }
}
