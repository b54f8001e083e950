ghost use Rattle.std.specs.Prelude.{◌≡◌, ◌∷◌, []};
ghost use Rattle.floyd_forward.specs.Set.{is_defined, read_at as read_at_lem, read_from as read_from_lem, read_needs as read_needs_lem};
ghost use Rattle.floyd_symexpr_rows.specs.Formulas.{saying};
ghost use Rattle.floyd_text.specs.Gives.{RuleGives};

use crate::objects::{item_in, region_at};
use crate::running::Running;
use floyd_assert::{share_formulas, share_terms};
use floyd_clight::Expr;
use floyd_goal_runs::say;
use floyd_symexpr::{Located, locate};
use floyd_symexpr_rows::Needs;
use floyd_text::{RuleStop, Steps};
use floyd_tree::{FormulaHead, FormulaList, Term};
use std::alloc::Global;
use std::sync::ledger::Ledger;

/// Puts `defined(v)` behind others.
fn say_defined<L: Ledger>(
    alloc: Global,
    v: &Term,
    all: &mut FormulaList,
    steps: &mut Steps<L>,
) -> Result<(), RuleStop>
    ensures exact { RuleGives (λ u. all.new) result (saying all.old (is_defined v.now ∷ [])) }
{
    let terms = [v.share()?];
    say(alloc, FormulaHead::Defined, &terms, all, steps)
}

/// What the object needs, and that its value is defined.
#[tactic(auto, using(floyd_symexpr_rows::proofs::SayingLemmas::goes_on, floyd_symexpr_rows::proofs::SayingLemmas::stops))]
fn read_needs<L: Ledger>(
    alloc: Global,
    l: &Located,
    v: &Term,
    steps: &mut Steps<L>,
) -> Result<Needs, RuleStop>
    ensures exact { RuleGives (λ n. n) result (read_needs_lem l.now v.now) }
{
    let mut sides = share_formulas(alloc, l.sides.as_slice())?;
    say_defined(alloc, v, &mut sides, steps)?;
    Ok(Needs {
        sides,
        valid: share_terms(alloc, l.valid.as_slice())?,
    })
}

/// The value of an object that lies there, and what it needs.
#[tactic(auto, using(floyd_symexpr_rows::proofs::SayingLemmas::goes_on, floyd_symexpr_rows::proofs::SayingLemmas::stops))]
fn read_at<L: Ledger>(
    at: Running<'_>,
    l: &Located,
    steps: &mut Steps<L>,
) -> Result<(Term, Needs), RuleStop>
    ensures exact { RuleGives (λ v. v) result (read_at_lem at.entry.run.now.source at.entry.defs.now.structs l.now) }
{
    let (region, value) = region_at(at.source().parts.as_slice(), l.part)?;
    let v = item_in(at.alloc, at.structs(), &l.path, region, value, steps)?;
    let needs = read_needs(at.alloc, l, &v, steps)?;
    Ok((v, needs))
}

/// The value of the object of an expression, and what it needs.
#[tactic(auto, using(floyd_symexpr_rows::proofs::SayingLemmas::goes_on, floyd_symexpr_rows::proofs::SayingLemmas::stops))]
pub(crate) fn read_from<L: Ledger>(
    at: Running<'_>,
    e: &Expr,
    steps: &mut Steps<L>,
) -> Result<(Term, Needs), RuleStop>
    ensures exact { RuleGives (λ v. v) result (read_from_lem at.entry.run.now.source at.entry.defs.now.structs e.now) }
{
    let l = locate(at.alloc, e, at.source(), at.blocks(), at.defs, steps)?;
    read_at(at, &l, steps)
}
