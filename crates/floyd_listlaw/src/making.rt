ghost use Rattle.std.specs.Prelude.{◌≡◌, ◌+◌, ◌≤◌, true, length, IfOk, IfErr, OnOk, Ok};
ghost use Rattle.floyd_tree.specs.Made.{Gives};
ghost use Rattle.floyd_listlaw.specs.PostfixClauses.{IsStop, all_within, formulas_run, is_within, next, nodes, nodes_in, with_claim, with_node};

use crate::heads::{LawForm, LawHead};
use crate::postfix::Postfix;
use floyd_text::Steps;
use floyd_tree::{Formula, MakeStop, Sort, Term, make, make_formula};
use std::alloc::Global;
use std::sync::ledger::Ledger;

/// Terms and formulas that are made and are not yet part of another, the last one last.
struct Stacks {
    terms: Vec<Term>,
    formulas: Vec<Formula>,
}

impl Drop for Stacks {
    fn drop(self) {
        let Stacks { terms, formulas } = self;
        drop(terms);
        drop(formulas);
    }
}

impl Stacks {
    /// Runs an item, where this sort stands for `S` and these terms for the arguments.
    fn run<L: Ledger>(
        &mut self,
        alloc: Global,
        item: Postfix,
        s: &Sort,
        given: &[Term],
        steps: &mut Steps<L>,
    ) -> Result<(), MakeStop>
        requires { is_within (length given.now) item ≡ true }
        ensures ok { OnOk result (next s.now given.now item self.old.terms.items self.old.formulas.items ≡ Ok (self.new.terms.items, self.new.formulas.items)) }
        ensures err { IfErr result (λ stop. IsStop stop (next s.now given.now item self.old.terms.items self.old.formulas.items)) }
        ensures cost { steps.new ≤ steps.old + nodes item }
    {
        match item {
            Postfix::Argument(place) => {
                let term = given[place].share()?;
                self.terms.push(term)?;
                Ok(())
            }
            Postfix::Node(head, count) => self.put_node(alloc, head, count, s, steps),
            Postfix::Claim(form, count, kids) => self.put_claim(alloc, form, count, kids, steps),
        }
    }

    /// Makes a term of the last terms, in their place.
    fn put_node<L: Ledger>(
        &mut self,
        alloc: Global,
        head: LawHead,
        count: usize,
        s: &Sort,
        steps: &mut Steps<L>,
    ) -> Result<(), MakeStop>
        ensures ok { OnOk result (with_node s.now head count self.old.terms.items ≡ Ok self.new.terms.items) }
        ensures err { IfErr result (λ stop. IsStop stop (with_node s.now head count self.old.terms.items)) }
        ensures same { self.new.formulas ≡ self.old.formulas }
        ensures cost { steps.new ≤ steps.old + 1 }
    {
        let head = head.with_sort(alloc, s)?;
        let from = self.terms.len().saturating_sub(count);
        let term = make(alloc, head, &self.terms.as_slice()[from..], steps)?;
        self.terms.truncate(from);
        self.terms.push(term)?;
        Ok(())
    }

    /// Makes a formula of the last terms and formulas, in their place.
    fn put_claim<L: Ledger>(
        &mut self,
        alloc: Global,
        form: LawForm,
        count: usize,
        kids: usize,
        steps: &mut Steps<L>,
    ) -> Result<(), MakeStop>
        ensures ok { OnOk result (with_claim form count kids self.old.terms.items self.old.formulas.items ≡ Ok (self.new.terms.items, self.new.formulas.items)) }
        ensures err { IfErr result (λ stop. IsStop stop (with_claim form count kids self.old.terms.items self.old.formulas.items)) }
        ensures cost { steps.new ≤ steps.old + 1 }
    {
        let from = self.terms.len().saturating_sub(count);
        let kids_from = self.formulas.len().saturating_sub(kids);
        let formula = make_formula(
            alloc,
            form.head(),
            &self.terms.as_slice()[from..],
            &self.formulas.as_slice()[kids_from..],
            steps,
        )?;
        self.terms.truncate(from);
        self.formulas.truncate(kids_from);
        self.formulas.push(formula)?;
        Ok(())
    }

    fn into_formulas(self) -> Vec<Formula>
        ensures { result ≡ self.formulas }
    {
        let Stacks { terms, formulas } = self;
        drop(terms);
        formulas
    }
}

/// The formulas that the items write.
pub fn formulas_of<L: Ledger>(
    alloc: Global,
    items: &[Postfix],
    s: &Sort,
    given: &[Term],
    steps: &mut Steps<L>,
) -> Result<Vec<Formula>, MakeStop>
    requires { all_within (length given.now) items.now ≡ true }
    ensures ok { IfOk result (λ all. formulas_run s.now given.now items.now ≡ Ok all.items) }
    ensures err { IfErr result (λ stop. IsStop stop (formulas_run s.now given.now items.now)) }
    ensures cost { steps.new ≤ steps.old + nodes_in items.now }
{
    let mut stacks = Stacks {
        terms: Vec::new(alloc),
        formulas: Vec::new(alloc),
    };
    'items: for item in items {
        stacks.run(alloc, *item, s, given, steps)?;
    }
    Ok(stacks.into_formulas())
}
