ghost use Rattle.std.specs.Prelude.{◌≡◌};
ghost use Rattle.floyd_text.specs.Gives.{RuleGives};
ghost use Rattle.floyd_symexpr.specs.Expressions.{evaluate as evaluate_lem};
ghost use Rattle.floyd_symexpr.specs.Locate.{locate as locate_lem};

use crate::expressions::{place, value};
use crate::operations::Setting;
use floyd_assert_trees::{Assertion, Defs};
use floyd_clight::{BlockList, Expr};
use floyd_symexpr_paths::{Located, locate_object};
use floyd_symexpr_rows::Needs;
use floyd_text::{RuleStop, Steps};
use floyd_tree::{FormulaList, Term, TermList};
use std::alloc::Global;
use std::sync::ledger::Ledger;

/// What an expression stands for: its term, the side formulas under which it is that, in order, and the terms that must be
/// valid addresses.
pub struct Evaluated {
    pub term: Term,
    pub sides: FormulaList,
    pub valid: TermList,
}

impl Drop for Evaluated {
    fn drop(self) {
        let Evaluated { term, sides, valid } = self;
        drop(term);
        drop(sides);
        drop(valid);
    }
}

/// What an expression stands for where the assertion holds: its term, its side formulas and the terms that must be valid.
/// The local blocks are not looked at, since a variable in an expression says itself whether it has one.
#[tactic(auto, using(floyd_symexpr_rows::proofs::SayingLemmas::goes_on, floyd_symexpr_rows::proofs::SayingLemmas::stops))]
pub fn evaluate<L: Ledger>(
    alloc: Global,
    e: &Expr,
    source: &Assertion,
    blocks: &BlockList,
    defs: &Defs,
    steps: &mut Steps<L>,
) -> Result<Evaluated, RuleStop>
    ensures exact { RuleGives (λ v. v) result (evaluate_lem source.now defs.now.structs e.now) }
{
    let _blocks = blocks;
    let at = Setting {
        alloc,
        source,
        structs: &defs.structs,
    };
    let mut needs = Needs::new(alloc);
    let term = value(at, e, &mut needs, steps)?;
    let (sides, valid) = needs.into_parts();
    Ok(Evaluated { term, sides, valid })
}

/// Where the object of an expression lies: in the first part, for the first of the three forms of its path, that has it. An
/// expression that stands for no object lies in no part. The local blocks are not looked at, since a variable in an
/// expression says itself whether it has one.
#[tactic(auto, using(floyd_symexpr_rows::proofs::SayingLemmas::goes_on, floyd_symexpr_rows::proofs::SayingLemmas::stops))]
pub fn locate<L: Ledger>(
    alloc: Global,
    e: &Expr,
    source: &Assertion,
    blocks: &BlockList,
    defs: &Defs,
    steps: &mut Steps<L>,
) -> Result<Located, RuleStop>
    ensures exact { RuleGives (λ x. x) result (locate_lem source.now defs.now.structs e.now) }
{
    let _blocks = blocks;
    let at = Setting {
        alloc,
        source,
        structs: &defs.structs,
    };
    let mut needs = Needs::new(alloc);
    let l = place(at, e, &mut needs, steps)?;
    locate_object(at.objects(), e.ctype(), &l, needs, steps)
}
