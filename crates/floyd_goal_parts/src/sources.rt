ghost use Rattle.std.specs.Prelude.{◌≡◌, IfOk};
ghost use Rattle.floyd_assert.specs.Removal.{missing as missing_lem};
ghost use Rattle.floyd_goal_parts.specs.Sources.{from_source as from_source_lem, in_place as in_place_lem, part_at as part_at_lem, part_number as part_number_lem, part_of as part_of_lem, source_of as source_of_lem, when_named as when_named_lem, with_parts as with_parts_lem};
ghost use Rattle.floyd_text.specs.Gives.{RuleGives};

use floyd_assert::{
    Assertion, Sep, SepList, share_binders, share_formulas, share_locals, share_parts,
};
use floyd_goal::{Context, Entail, Goal, Pure, Run, Target, intros_first, wrong_goal};
use floyd_text::{Code, No, RuleStop, Shared, Shown};
use std::alloc::{AllocError, Global};

/// The number of the part that a command is tried on; 0 is none.
pub fn part_number(target: Target) -> u32
    ensures { result ≡ part_number_lem target }
{
    match target {
        Target::Nothing => 0,
        Target::Part(number) => number,
        Target::Hypothesis(_) => 0,
    }
}

/// The refusal of a part of that number, which is not there.
fn missing(number: u32) -> No
    ensures { result ≡ missing_lem number }
{
    No {
        code: Code::PartMissing,
        shown: Shown::Part(number),
    }
}

/// The part of that number, from 1.
pub fn part_at(parts: &[Sep], number: u32) -> Result<&Sep, RuleStop>
    ensures exact { RuleGives (λ p. p.now) result (part_at_lem parts.now number) }
{
    if number == 0 {
        return Err(RuleStop::No(missing(0)));
    }
    match parts.get(number as usize - 1) {
        Some(part) => Ok(part),
        None => Err(RuleStop::No(missing(number))),
    }
}

fn when_named(source: &Assertion) -> Result<&Assertion, RuleStop>
    ensures exact { RuleGives (λ a. a.now) result (when_named_lem source.now) }
{
    if source.existentials.is_empty() {
        Ok(source)
    } else {
        Err(RuleStop::No(intros_first()))
    }
}

/// The source of a goal about memory, whose existentials have names.
pub fn source_of(goal: &Goal) -> Result<&Assertion, RuleStop>
    ensures exact { RuleGives (λ a. a.now) result (source_of_lem goal.now) }
{
    match goal {
        Goal::Run(run) => when_named(run.source.get()),
        Goal::Entail(entail) => when_named(entail.source.get()),
        Goal::Pure(_) => Err(RuleStop::No(wrong_goal())),
    }
}

/// The source of a goal about memory, and the part that a command is tried on.
pub fn part_of(goal: &Goal, number: u32) -> Result<(&Assertion, &Sep), RuleStop>
    ensures exact { RuleGives (λ p. (p.0.now, p.1.now)) result (part_of_lem goal.now number) }
{
    match source_of(goal) {
        Ok(source) => match part_at(source.parts.as_slice(), number) {
            Ok(part) => Ok((source, part)),
            Err(stop) => Err(stop),
        },
        Err(stop) => Err(stop),
    }
}

/// The parts with these in place of the one of that number.
#[tactic(auto, using(std::proofs::lemmas::List::take_min))]
pub fn in_place(
    alloc: Global,
    number: u32,
    new: SepList,
    parts: &[Sep],
) -> Result<SepList, AllocError>
    ensures { IfOk result (λ all. all ≡ in_place_lem number new parts.now) }
{
    let place = parts.len().min((number as usize).saturating_sub(1));
    let behind = parts.len().min(number as usize);
    let mut all = share_parts(alloc, &parts[..place])?;
    all.append(new)?;
    all.append(share_parts(alloc, &parts[behind..])?)?;
    Ok(all)
}

/// The assertion with these parts. What it has besides is shared.
pub fn with_parts(
    alloc: Global,
    source: &Assertion,
    parts: SepList,
) -> Result<Assertion, AllocError>
    ensures { IfOk result (λ a. a ≡ with_parts_lem source.now parts) }
{
    let existentials = share_binders(alloc, source.existentials.as_slice())?;
    let props = share_formulas(alloc, source.props.as_slice())?;
    let locals = share_locals(alloc, source.locals.as_slice())?;
    Ok(Assertion {
        existentials,
        props,
        locals,
        parts,
    })
}

/// The goal in that context, from that source. What it has besides is shared.
pub fn from_source(
    goal: &Goal,
    context: Context,
    source: Shared<Assertion>,
) -> Result<Goal, AllocError>
    ensures { IfOk result (λ g. g ≡ from_source_lem goal.now context source) }
{
    match goal {
        Goal::Run(run) => {
            let rest = run.rest.share()?;
            let exits = run.exits.share()?;
            Ok(Goal::Run(Run {
                context,
                source,
                rest,
                exits,
            }))
        }
        Goal::Entail(entail) => {
            let target = entail.target.share()?;
            Ok(Goal::Entail(Entail {
                context,
                source,
                target,
            }))
        }
        Goal::Pure(pure) => {
            let target = pure.target.share()?;
            Ok(Goal::Pure(Pure { context, target }))
        }
    }
}
