ghost use Rattle.std.specs.Prelude.{◌≡◌, ◌+◌, ◌≤◌, ◌<◌, length, IfOk, Some};
ghost use Rattle.floyd_text.specs.Gives.{RuleGives};
ghost use Rattle.floyd_listlaw.specs.Instances.{by_row, formulas_in, in_sort, instance, stop_code};
ghost use Rattle.floyd_listlaw.specs.InstanceClauses.{refusal};
ghost use Rattle.floyd_listlaw.specs.Laws.{HoldsFor};
ghost use Rattle.floyd_listlaw.specs.Names.{law_named};
ghost use Rattle.floyd_listlaw.specs.Table.{row};

use crate::fitting::fixed_by;
use crate::list_law::{ListLaw, law_named};
use crate::making::formulas_of;
use floyd_text::{Code, Name, No, RuleStop, Shown, Steps};
use floyd_tree::{Formula, FormulaList, MakeStop, Sort, Term, TermList};
use sqlite_items::Items;
use std::alloc::Global;
use std::sync::ledger::Ledger;

/// What a law says of terms: where the premises are true, the conclusion is.
pub struct Law {
    pub premises: FormulaList,
    pub conclusion: Formula,
}

impl Drop for Law {
    fn drop(self) {
        let Law {
            premises,
            conclusion,
        } = self;
        drop(premises);
        drop(conclusion);
    }
}

/// What the law of that name says of the terms. An unknown name is refused first, then another number of terms than the
/// law has, then terms of other sorts, and last a formula that is too large. Each node that is made counts one step, of
/// which there are 17 at most.
pub fn law_instance<L: Ledger>(
    alloc: Global,
    name: &Name,
    terms: &TermList,
    steps: &mut Steps<L>,
) -> Result<Law, RuleStop>
    ensures exact { RuleGives (λ law. law) result (instance name.now terms.now) }
    ensures holds { IfOk result (HoldsFor terms.now) }
    ensures cost { steps.new ≤ steps.old + 17 }
{
    let Some(law) = law_named(name) else {
        return Err(RuleStop::No(No {
            code: Code::UnknownName,
            shown: Shown::Name(name.share()?),
        }));
    };
    of_law(alloc, law, terms.as_slice(), steps)
}

/// The same of a law.
fn of_law<L: Ledger>(
    alloc: Global,
    law: ListLaw,
    terms: &[Term],
    steps: &mut Steps<L>,
) -> Result<Law, RuleStop>
    ensures exact { RuleGives (λ law. law) result (by_row (row law) terms.now) }
    ensures cost { steps.new ≤ steps.old + 17 }
{
    let arguments = law.arguments();
    if terms.len() != arguments.len() {
        return Err(RuleStop::No(No {
            code: Code::WithMismatch,
            shown: Shown::Count(terms.len() as u64),
        }));
    }
    match fixed_by(alloc, arguments, terms)? {
        Some(s) => in_sort(alloc, law, &s, terms, steps),
        None => Err(RuleStop::No(No {
            code: Code::IllSorted,
            shown: Shown::Nothing,
        })),
    }
}

/// The same, where this sort stands for `S`.
fn in_sort<L: Ledger>(
    alloc: Global,
    law: ListLaw,
    s: &Sort,
    terms: &[Term],
    steps: &mut Steps<L>,
) -> Result<Law, RuleStop>
    requires { length terms.now ≡ length (row law).arguments }
    ensures exact { RuleGives (λ law. law) result (in_sort (row law) terms.now (Some s.now)) }
    ensures cost { steps.new ≤ steps.old + 17 }
{
    match formulas_of(alloc, law.items(), s, terms, steps) {
        Ok(formulas) => Ok(law_of(formulas)),
        Err(stop) => Err(refusal(stop)),
    }
}

/// The law whose conclusion is the last of the formulas.
fn law_of(mut formulas: Vec<Formula>) -> Law
    requires { 0 < length formulas.items }
    ensures { formulas_in result ≡ formulas.items }
{
    match formulas.pop() {
        Some(conclusion) => Law {
            premises: Items::from_vec(formulas),
            conclusion,
        },
        None => unreachable!(),
    }
}

fn refusal(stop: MakeStop) -> RuleStop
    ensures { result ≡ refusal stop }
{
    let code = match stop {
        MakeStop::IllSorted => Code::IllSorted,
        MakeStop::TooLarge => Code::TermTooLarge,
        MakeStop::Memory => return RuleStop::Memory,
    };
    RuleStop::No(No {
        code,
        shown: Shown::Nothing,
    })
}
