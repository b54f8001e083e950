ghost use Rattle.std.specs.Prelude.{◌≡◌, IfOk, Ok, pos, ◌∷◌, [], ◌++◌};
ghost use Rattle.floyd_fieldpath.specs.Nested.{literal as literal_lem};
ghost use Rattle.floyd_forward.specs.Assign.{Assigns, AssignsTo, assigned as assigned_lem, may_store, part_set as part_set_lem, store_needs as store_needs_lem, stored as stored_lem};
ghost use Rattle.floyd_forward.specs.Forward.{Named};
ghost use Rattle.floyd_goal.specs.Answers.{IsAnswer};
ghost use Rattle.floyd_symexpr_rows.specs.Formulas.{equal as equal_lem, saying};
ghost use Rattle.floyd_text.specs.Gives.{RuleGives};

use crate::objects::{Target, part_with, region_at};
use crate::running::Running;
use floyd_assert::{Region, Sep, SepList, share_formulas, share_terms};
use floyd_clight::Expr;
use floyd_ctypes::CType;
use floyd_fieldpath::{literal, sized_type};
use floyd_goal_runs::{
    Context, GoalList, in_place, intros_first, needed, one_goal, say, share_context, under_sides,
    with_parts,
};
use floyd_symexpr::{Evaluated, Located, evaluate, locate};
use floyd_symexpr_rows::{Needs, say_of_type};
use floyd_text::{RuleStop, Steps};
use floyd_tree::{FormulaHead, FormulaList, Term};
use std::alloc::{AllocError, Global};
use std::sync::ledger::Ledger;

/// What an assignment does: the number of the part that has the object, from 1, that part with the value in it, and what it
/// needs.
pub(crate) struct Stored {
    pub(crate) number: u32,
    pub(crate) part: Sep,
    pub(crate) needs: Needs,
}

impl Drop for Stored {
    fn drop(self) {
        let Stored {
            number: _,
            part,
            needs,
        } = self;
        drop(part);
        drop(needs);
    }
}

/// Puts behind others that the share is 16.
fn say_whole<L: Ledger>(
    alloc: Global,
    share: &Term,
    all: &mut FormulaList,
    steps: &mut Steps<L>,
) -> Result<(), RuleStop>
    ensures exact { RuleGives (λ u. all.new) result (saying all.old (equal_lem share.now (literal_lem (pos 16)) ∷ [])) }
{
    let terms = [share.share()?, literal(alloc, 16, steps)?];
    say(alloc, FormulaHead::Equal, &terms, all, steps)
}

/// Puts behind others that the value has the type, and that the region is had whole.
#[tactic(auto, using(floyd_symexpr_rows::proofs::SayingLemmas::one_more, floyd_symexpr_rows::proofs::SayingLemmas::one_stops))]
fn say_may_store<L: Ledger>(
    alloc: Global,
    t: &CType,
    v: &Term,
    region: &Region,
    all: &mut FormulaList,
    steps: &mut Steps<L>,
) -> Result<(), RuleStop>
    ensures exact { RuleGives (λ u. all.new) result (saying all.old (may_store t.now v.now region.now)) }
{
    let t = sized_type(alloc, t, steps)?;
    say_of_type(alloc, &t, v, all, steps)?;
    say_whole(alloc, &region.share, all, steps)
}

/// What the place needs, and then the value.
fn all_needs(alloc: Global, l: &Located, v: &Evaluated) -> Result<Needs, AllocError>
    ensures { IfOk result (λ n. n ≡ record { sides = l.now.sides ++ v.now.sides; valid = l.now.valid ++ v.now.valid }) }
{
    let mut sides = share_formulas(alloc, l.sides.as_slice())?;
    sides.append(share_formulas(alloc, v.sides.as_slice())?)?;
    let mut valid = share_terms(alloc, l.valid.as_slice())?;
    valid.append(share_terms(alloc, v.valid.as_slice())?)?;
    Ok(Needs { sides, valid })
}

/// The same, and then that the value may be stored.
#[tactic(auto, using(floyd_symexpr_rows::proofs::SayingLemmas::goes_on, floyd_symexpr_rows::proofs::SayingLemmas::stops))]
fn store_needs<L: Ledger>(
    alloc: Global,
    t: &CType,
    l: &Located,
    v: &Evaluated,
    region: &Region,
    steps: &mut Steps<L>,
) -> Result<Needs, RuleStop>
    ensures exact { RuleGives (λ n. n) result (store_needs_lem t.now l.now v.now region.now) }
{
    let mut needs = all_needs(alloc, l, v)?;
    say_may_store(alloc, t, &v.term, region, &mut needs.sides, steps)?;
    Ok(needs)
}

/// A value of the type that is stored in an object that lies there.
#[tactic(auto, using(floyd_symexpr_rows::proofs::SayingLemmas::goes_on, floyd_symexpr_rows::proofs::SayingLemmas::stops))]
fn store_value<L: Ledger>(
    at: Running<'_>,
    t: &CType,
    l: &Located,
    v: &Evaluated,
    steps: &mut Steps<L>,
) -> Result<Stored, RuleStop>
    ensures exact { RuleGives (λ s. s) result (stored_lem at.entry.run.now.source at.entry.defs.now.structs t.now l.now v.now) }
{
    let (region, value) = region_at(at.source().parts.as_slice(), l.part)?;
    let target = Target { region, value };
    let part = part_with(at.alloc, at.structs(), &l.path, &v.term, target, steps)?;
    let needs = store_needs(at.alloc, t, l, v, region, steps)?;
    Ok(Stored {
        number: l.part,
        part,
        needs,
    })
}

/// The value of an expression that is stored in the object of another.
#[tactic(auto, using(floyd_symexpr_rows::proofs::SayingLemmas::goes_on, floyd_symexpr_rows::proofs::SayingLemmas::stops))]
fn assigned<L: Ledger>(
    at: Running<'_>,
    p: &Expr,
    e: &Expr,
    steps: &mut Steps<L>,
) -> Result<Stored, RuleStop>
    ensures exact { RuleGives (λ s. s) result (assigned_lem at.entry.run.now.source at.entry.defs.now.structs p.now e.now) }
{
    let l = locate(at.alloc, p, at.source(), at.blocks(), at.defs, steps)?;
    let v = evaluate(at.alloc, e, at.source(), at.blocks(), at.defs, steps)?;
    store_value(at, p.ctype(), &l, &v, steps)
}

/// What is left runs in that context with the part in the place of the one of that number.
fn part_set(
    at: Running<'_>,
    number: u32,
    part: Sep,
    context: Context,
) -> Result<GoalList, AllocError>
    ensures { IfOk result (λ gs. part_set_lem at.entry.run.now number part context ≡ Ok gs) }
{
    let mut new = SepList::new(at.alloc);
    new.push(part)?;
    let parts = in_place(at.alloc, number, new, at.source().parts.as_slice())?;
    let source = with_parts(at.alloc, at.source(), parts)?;
    one_goal(at.alloc, at.runs_on(context, source)?)
}

fn assigns_to<L: Ledger>(
    at: Running<'_>,
    s: &Stored,
    steps: &mut Steps<L>,
) -> Result<GoalList, RuleStop>
    ensures exact { IsAnswer (AssignsTo at.entry.run.now s.now) result }
{
    let formulas = s.needs.sides.as_slice();
    let (side, context) = under_sides(at.alloc, &at.run.context, formulas, steps)?;
    let inner = share_context(at.alloc, &context)?;
    let goals = part_set(at, s.number, s.part.share(at.alloc)?, inner)?;
    Ok(needed(
        at.alloc,
        &at.run.source,
        s.needs.valid.as_slice(),
        side,
        &context,
        goals,
    )?)
}

#[tactic(auto, using(floyd_goal_parts::proofs::RowLemmas::row_stops, floyd_goal_parts::proofs::RowLemmas::row_goes))]
fn assigns_value<L: Ledger>(
    at: Running<'_>,
    p: &Expr,
    e: &Expr,
    steps: &mut Steps<L>,
) -> Result<GoalList, RuleStop>
    ensures exact { IsAnswer (Assigns at.entry.defs.now.structs at.entry.run.now p.now e.now) result }
{
    let s = assigned(at, p, e, steps)?;
    assigns_to(at, &s, steps)
}

/// An assignment, once the existentials have names.
pub(crate) fn assigns<L: Ledger>(
    at: Running<'_>,
    p: &Expr,
    e: &Expr,
    steps: &mut Steps<L>,
) -> Result<GoalList, RuleStop>
    ensures exact { IsAnswer (Named at.entry.run.now (Assigns at.entry.defs.now.structs at.entry.run.now p.now e.now)) result }
{
    if at.is_pending() {
        Err(RuleStop::No(intros_first()))
    } else {
        assigns_value(at, p, e, steps)
    }
}
