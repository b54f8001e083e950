ghost use Rattle.std.specs.Prelude.{◌≡◌, IfErr, IfOk, OnOk, false};
ghost use Rattle.floyd_goal_parts.specs.Writing.{StopsAs, at_most as at_most_lem, equation as equation_lem, is_faulty, is_pointer as is_pointer_lem};
ghost use Rattle.floyd_tree.specs.Formulas.{Says, NoFormula};
ghost use Rattle.floyd_tree.specs.Plain.{plains};

use floyd_goal::too_large;
use floyd_text::{RuleStop, Steps};
use floyd_tree::{Formula, FormulaHead, MakeStop, Term, make_formula};
use std::alloc::Global;
use std::sync::ledger::Ledger;

/// The formula of this head on these terms, unless it cannot be made.
pub fn written_formula<L: Ledger>(
    alloc: Global,
    head: FormulaHead,
    terms: &[Term],
    steps: &mut Steps<L>,
) -> Result<Formula, RuleStop>
    ensures ok { IfOk result (λ f. f ≡ Says head (plains terms.now) NoFormula) }
    ensures fine { OnOk result (is_faulty (Says head (plains terms.now) NoFormula) ≡ false) }
    ensures err { IfErr result (λ stop. StopsAs stop (is_faulty (Says head (plains terms.now) NoFormula))) }
{
    match make_formula(alloc, head, terms, &[], steps) {
        Ok(f) => Ok(f),
        Err(MakeStop::Memory) => Err(RuleStop::Memory),
        Err(MakeStop::IllSorted) => Err(RuleStop::No(too_large())),
        Err(MakeStop::TooLarge) => Err(RuleStop::No(too_large())),
    }
}

/// `isptr`.
pub fn is_pointer<L: Ledger>(
    alloc: Global,
    v: &Term,
    steps: &mut Steps<L>,
) -> Result<Formula, RuleStop>
    ensures ok { IfOk result (λ f. f ≡ is_pointer_lem v.now) }
    ensures fine { OnOk result (is_faulty (is_pointer_lem v.now) ≡ false) }
    ensures err { IfErr result (λ stop. StopsAs stop (is_faulty (is_pointer_lem v.now))) }
{
    let terms = [v.share()?];
    written_formula(alloc, FormulaHead::IsPtr, &terms, steps)
}

/// An equation of terms of one sort.
pub fn equation<L: Ledger>(
    alloc: Global,
    a: &Term,
    b: &Term,
    steps: &mut Steps<L>,
) -> Result<Formula, RuleStop>
    ensures ok { IfOk result (λ f. f ≡ equation_lem a.now b.now) }
    ensures fine { OnOk result (is_faulty (equation_lem a.now b.now) ≡ false) }
    ensures err { IfErr result (λ stop. StopsAs stop (is_faulty (equation_lem a.now b.now))) }
{
    let terms = [a.share()?, b.share()?];
    written_formula(alloc, FormulaHead::Equal, &terms, steps)
}

/// That a number is at most another.
pub fn at_most<L: Ledger>(
    alloc: Global,
    a: &Term,
    b: &Term,
    steps: &mut Steps<L>,
) -> Result<Formula, RuleStop>
    ensures ok { IfOk result (λ f. f ≡ at_most_lem a.now b.now) }
    ensures fine { OnOk result (is_faulty (at_most_lem a.now b.now) ≡ false) }
    ensures err { IfErr result (λ stop. StopsAs stop (is_faulty (at_most_lem a.now b.now))) }
{
    let terms = [a.share()?, b.share()?];
    written_formula(alloc, FormulaHead::AtMost, &terms, steps)
}
