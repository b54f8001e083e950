ghost use Rattle.std.specs.Prelude.{◌≡◌, ◌≤◌, IfOk, None, true};
ghost use Rattle.floyd_pure_quantifiers.specs.EquationsClauses.{two};
ghost use Rattle.floyd_tree.specs.Formulas.{formula_height, formula_size as formula_size_lem, well_sorted};
ghost use Rattle.floyd_tree.specs.MadeFormulas.{formula_fault_at};

use floyd_text::Steps;
use floyd_tree::{Formula, FormulaHead, MakeStop, Term, formula_size, make_formula};
use std::alloc::{AllocError, Global};
use std::sync::ledger::Ledger;

/// What each formula is: well sorted, and within the limits.
pub fn limits_of(f: &Formula)
    ensures sorted { well_sorted f.now ≡ true }
    ensures small { formula_size_lem f.now ≤ 65536 }
    ensures low { formula_height f.now ≤ 256 }
{
    formula_size(f);
    f.height();
}

/// The formula of this head and these two terms, which is well sorted and within the limits.
pub fn of_two<L: Ledger>(
    alloc: Global,
    head: FormulaHead,
    a: &Term,
    b: &Term,
    steps: &mut Steps<L>,
) -> Result<Formula, AllocError>
    requires { formula_fault_at (two head a.now b.now) ≡ None }
    ensures { IfOk result (λ f. f ≡ two head a.now b.now) }
{
    let terms = [a.share()?, b.share()?];
    match make_formula(alloc, head, &terms, &[], steps) {
        Ok(formula) => Ok(formula),
        Err(MakeStop::IllSorted) => unreachable!(),
        Err(MakeStop::TooLarge) => unreachable!(),
        Err(MakeStop::Memory) => Err(AllocError),
    }
}
