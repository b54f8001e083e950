ghost use Rattle.std.specs.Prelude.{◌≡◌, [], IfOk, Ok, bytes_eq, length};
ghost use Rattle.std.specs.List.{list_any};
ghost use Rattle.std.specs.Option.{option_copied};
ghost use Rattle.floyd_assert_changes.specs.Changed.{AssertionSortsAgree, assertion_with, has_name as has_name_lem};
ghost use Rattle.floyd_entail.specs.Intros.{ByNames, IsOpened, Opens, OpensWith, PairsSortsAgree, Row, SortsAgree, SourceSortsAgree, bare as bare_lem, by_names as by_names_lem, first_taken as first_taken_lem, is_taken as is_taken_lem, name_taken as name_taken_lem, new_variables as new_variables_lem, opened_context as opened_context_lem, wrong_names as wrong_names_lem};
ghost use Rattle.floyd_goal.specs.Answers.{IsAnswer};
ghost use Rattle.floyd_text.specs.Gives.{RuleGives};
ghost use Rattle.floyd_tree.specs.Plain.{At, Done};
ghost use Rattle.floyd_tree_sorts.specs.declared.heads.Head.TheVariants.{Variable};
ghost use Rattle.floyd_truth.specs.Replace.{puts};

use floyd_assert::{
    Assertion, Binder, BinderList, Defs, SpecTable, share_binders, share_formulas, share_locals,
    share_parts,
};
use floyd_assert_changes::{change_assertion, subst_formulas};
use floyd_goal_parts::{Args, Context, Goal, GoalList, context_of, one_from, wrong_goal};
use floyd_text::{Code, Name, No, RuleStop, Shared, Shown, Steps};
use floyd_tree::{FormulaList, Head, MakeStop, Sort, Term, make};
use std::alloc::{AllocError, Global};
use std::sync::ledger::Ledger;

/// The refusal of names that are not as many as the existentials.
fn wrong_names() -> No
    ensures { result ≡ wrong_names_lem }
{
    No {
        code: Code::WrongNames,
        shown: Shown::Nothing,
    }
}

/// The refusal of a name that is taken.
fn name_taken(name: &Name) -> Result<No, AllocError>
    ensures { IfOk result (λ no. no ≡ name_taken_lem name.now) }
{
    Ok(No {
        code: Code::NameTaken,
        shown: Shown::Name(name.share()?),
    })
}

fn has_name(name: &Name, binders: &[Binder]) -> bool
    ensures { result ≡ has_name_lem name.now binders.now }
{
    binders.iter().any(|binder| name == &binder.name)
}

fn is_among(name: &Name, names: &[Name]) -> bool
    ensures { result ≡ list_any (bytes_eq name.now) names.now }
{
    names.iter().any(|other| name == other)
}

/// Whether a variable or a name before has that name.
fn is_taken(variables: &[Binder], before: &[Name], name: &Name) -> bool
    ensures { result ≡ is_taken_lem variables.now before.now name.now }
{
    let is_variable = has_name(name, variables);
    is_variable || is_among(name, before)
}

/// The first of the names that is that of a variable, or stands before it already.
#[tactic(auto, using(crate::proofs::IntrosLemmas::next_name))]
fn first_taken<'a>(variables: &[Binder], names: &'a [Name]) -> Option<&'a Name>
    ensures { option_copied result ≡ first_taken_lem variables.now [] names.now }
{
    'names: for i in 0..names.len() {
        if is_taken(variables, &names[..i], &names[i]) {
            return Some(&names[i]);
        }
    }
    None
}

/// The variable of that name.
fn variable<L: Ledger>(
    alloc: Global,
    name: &Name,
    sort: &Sort,
    steps: &mut Steps<L>,
) -> Result<Term, AllocError>
    ensures { IfOk result (λ t. t ≡ At (Variable name.now sort.now) Done) }
{
    match make(
        alloc,
        Head::Variable(name.share()?, sort.share()?),
        &[],
        steps,
    ) {
        Ok(t) => Ok(t),
        Err(MakeStop::Memory) => Err(AllocError),
        Err(MakeStop::IllSorted) => unreachable!(),
        Err(MakeStop::TooLarge) => unreachable!(),
    }
}

/// Each existential beside the variable of its new name.
#[tactic(auto, using(crate::proofs::IntrosLemmas::pair_step))]
fn by_names<L: Ledger>(
    alloc: Global,
    existentials: &[Binder],
    names: &[Name],
    steps: &mut Steps<L>,
) -> Result<Vec<(Name, Term)>, AllocError>
    requires { length names.now ≡ length existentials.now }
    ensures { IfOk result (λ all. all.items ≡ by_names_lem existentials.now names.now) }
{
    let mut all = Vec::new(alloc);
    'existentials: for i in 0..existentials.len() {
        let binder = &existentials[i];
        let term = variable(alloc, &names[i], &binder.sort, steps)?;
        all.push((binder.name.share()?, term))?;
    }
    Ok(all)
}

/// The new variables.
#[tactic(auto, using(crate::proofs::IntrosLemmas::variable_step))]
fn new_variables(
    alloc: Global,
    existentials: &[Binder],
    names: &[Name],
) -> Result<BinderList, AllocError>
    requires { length names.now ≡ length existentials.now }
    ensures { IfOk result (λ all. all ≡ new_variables_lem existentials.now names.now) }
{
    let mut all = BinderList::new(alloc);
    'existentials: for i in 0..existentials.len() {
        let name = names[i].share()?;
        let sort = existentials[i].sort.share()?;
        all.push(Binder { name, sort })?;
    }
    Ok(all)
}

/// LOCAL and SEP alone.
fn bare(alloc: Global, source: &Assertion) -> Result<Assertion, AllocError>
    ensures { IfOk result (λ a. a ≡ bare_lem source.now) }
{
    let existentials = BinderList::new(alloc);
    let props = FormulaList::new(alloc);
    let locals = share_locals(alloc, source.locals.as_slice())?;
    let parts = share_parts(alloc, source.parts.as_slice())?;
    Ok(Assertion {
        existentials,
        props,
        locals,
        parts,
    })
}

/// The context behind the command, with these variables and hypotheses more.
fn opened_context(
    alloc: Global,
    context: &Context,
    more: BinderList,
    props: FormulaList,
) -> Result<Context, AllocError>
    ensures { IfOk result (λ c. c ≡ opened_context_lem context.now more props) }
{
    let mut variables = share_binders(alloc, context.variables.get().as_slice())?;
    variables.append(more)?;
    let mut hypotheses = share_formulas(alloc, context.hypotheses.get().as_slice())?;
    hypotheses.append(props)?;
    let mark = context.mark.after_command(alloc)?;
    Ok(Context {
        variables: Shared::new(alloc, variables)?,
        hypotheses: Shared::new(alloc, hypotheses)?,
        mark,
    })
}

/// LOCAL and SEP with the terms of these pairs.
fn memory_with<L: Ledger>(
    alloc: Global,
    source: &Assertion,
    pairs: &[(Name, Term)],
    steps: &mut Steps<L>,
) -> Result<Assertion, RuleStop>
    requires { AssertionSortsAgree (puts pairs.now) (bare_lem source.now) }
    ensures exact { RuleGives (λ a. a) result (assertion_with pairs.now (bare_lem source.now)) }
{
    let bare = bare(alloc, source)?;
    change_assertion(alloc, &bare, pairs, steps)
}

/// The goal with these new variables and hypotheses, and with this memory.
fn is_opened(
    alloc: Global,
    goal: &Goal,
    source: &Assertion,
    names: &[Name],
    props: FormulaList,
    memory: Assertion,
) -> Result<GoalList, AllocError>
    requires { length names.now ≡ length source.now.existentials }
    ensures { IfOk result (λ gs. IsOpened goal.now source.now names.now props memory (Ok gs)) }
{
    let more = new_variables(alloc, source.existentials.as_slice(), names)?;
    let context = opened_context(alloc, context_of(goal), more, props)?;
    one_from(alloc, goal, context, memory)
}

/// The goal with the terms of these pairs in PROP, which is among its hypotheses, and in LOCAL and SEP.
#[tactic(auto, using(floyd_goal_parts::proofs::RowLemmas::row_stops))]
fn opens_with<L: Ledger>(
    alloc: Global,
    goal: &Goal,
    source: &Assertion,
    names: &[Name],
    pairs: &[(Name, Term)],
    steps: &mut Steps<L>,
) -> Result<GoalList, RuleStop>
    requires count { length names.now ≡ length source.now.existentials }
    requires sorts { PairsSortsAgree source.now pairs.now }
    ensures exact { IsAnswer (OpensWith goal.now source.now names.now pairs.now) result }
{
    let props = subst_formulas(alloc, source.props.as_slice(), pairs, steps)?;
    let memory = memory_with(alloc, source, pairs, steps)?;
    Ok(is_opened(alloc, goal, source, names, props, memory)?)
}

/// The same with the names.
fn opens<L: Ledger>(
    alloc: Global,
    goal: &Goal,
    source: &Assertion,
    names: &[Name],
    steps: &mut Steps<L>,
) -> Result<GoalList, RuleStop>
    requires count { length names.now ≡ length source.now.existentials }
    requires sorts { SourceSortsAgree source.now names.now }
    ensures exact { IsAnswer (Opens goal.now source.now names.now) result }
{
    let existentials = source.existentials.as_slice();
    let pairs = by_names(alloc, existentials, names, steps)?;
    opens_with(alloc, goal, source, names, pairs.as_slice(), steps)
}

/// The same once the names are as many as the existentials, and none is taken.
fn with_names<L: Ledger>(
    alloc: Global,
    goal: &Goal,
    source: &Assertion,
    names: &[Name],
    steps: &mut Steps<L>,
) -> Result<GoalList, RuleStop>
    requires { SourceSortsAgree source.now names.now }
    ensures exact { IsAnswer (ByNames goal.now source.now names.now) result }
{
    if names.len() != source.existentials.len() {
        return Err(RuleStop::No(wrong_names()));
    }
    match first_taken(context_of(goal).variables.get().as_slice(), names) {
        Some(name) => Err(RuleStop::No(name_taken(name)?)),
        None => opens(alloc, goal, source, names, steps),
    }
}

/// Gives names to all existentials of a goal's source, which are variables of the goal from then on, and takes the formulas
/// of its PROP among the hypotheses. A source without existentials takes no names.
///
/// In the source each free occurrence of an existential's name has the existential's sort. Of a goal that is well formed
/// this is so: there a free variable has one sort everywhere, and below an existential it has that of the existential.
pub fn do_intros<L: Ledger>(
    alloc: Global,
    goal: &Goal,
    args: &Args,
    _defs: &Defs,
    _specs: &SpecTable,
    steps: &mut Steps<L>,
) -> Result<GoalList, RuleStop>
    requires sorts { SortsAgree goal.now args.now.names }
    ensures exact { IsAnswer (Row goal.now args.now) result }
{
    let names = args.names.as_slice();
    match goal {
        Goal::Run(run) => with_names(alloc, goal, run.source.get(), names, steps),
        Goal::Entail(entail) => with_names(alloc, goal, entail.source.get(), names, steps),
        Goal::Pure(_) => Err(RuleStop::No(wrong_goal())),
    }
}
