ghost use Rattle.std.specs.Prelude.{◌≡◌, ◌++◌, ◌<◌, [], IfOk, map};
ghost use Rattle.floyd_goal_trees.specs.declared.context.Mark.TheVariants.{Plain};
ghost use Rattle.floyd_goal_trees.specs.declared.exits.Exit.TheVariants.{None as NoExit, To};
ghost use Rattle.floyd_goal_forms.specs.Starts.{as_assertion as as_assertion_lem, block_part, end_of as end_of_lem, function_start as function_start_lem, never as never_lem, parameters_are as parameters_are_lem};

use crate::blocks::put_blocks;
use floyd_assert_trees::{
    Assertion, BinderList, Funspec, LocalList, Postcondition, Precondition, share_binders,
    share_formulas, share_parts,
};
use floyd_clight::{BlockList, Defined, Local, flat};
use floyd_ctypes::{CType, StructTable};
use floyd_goal_runs::run_goal;
use floyd_goal_trees::{Context, Exit, Exits, Goal, Mark, Rest, Return};
use floyd_text::{Shared, Steps};
use floyd_tree::{FormulaHead, FormulaList, Term, make_formula};
use sqlite_items::Items;
use std::alloc::{AllocError, Global};
use std::marker::Brand;
use std::sync::ledger::{Blank, Ledger};

/// Each parameter has its term of PARAMS.
fn parameters_are(
    alloc: Global,
    parameters: &[Local],
    terms: &[Term],
) -> Result<LocalList, AllocError>
    ensures { IfOk result (λ all. all ≡ parameters_are_lem parameters.now terms.now) }
{
    let mut all = LocalList::new(alloc);
    'parameters: for i in 0..parameters.len() {
        let Some(term) = terms.get(i) else {
            return Ok(all);
        };
        all.push(floyd_assert_trees::Local {
            name: parameters[i].name.share()?,
            term: term.share()?,
        })?;
    }
    Ok(all)
}

/// What holds where control cannot come.
#[tactic(auto, using(crate::proofs::StartLemmas::formula_is))]
fn never<L: Ledger>(alloc: Global, steps: &mut Steps<L>) -> Result<Assertion, AllocError>
    ensures { IfOk result (λ a. a ≡ never_lem) }
{
    let mut props = FormulaList::new(alloc);
    match make_formula(alloc, FormulaHead::False, &[], &[], steps) {
        Ok(f) => props.push(f)?,
        Err(_) => return Err(AllocError),
    }
    Ok(Assertion {
        existentials: BinderList::new(alloc),
        props,
        locals: LocalList::new(alloc),
        parts: Items::new(alloc),
    })
}

/// The end that is never reached.
fn unreached<L: Ledger>(alloc: Global, steps: &mut Steps<L>) -> Result<Exit, AllocError>
    ensures { IfOk result (λ e. e ≡ To never_lem) }
{
    let never = never(alloc, steps)?;
    Ok(Exit::To(Shared::new(alloc, never)?))
}

/// The end of a void function; the end of another one is never reached.
fn end_of<L: Ledger>(alloc: Global, t: &CType, steps: &mut Steps<L>) -> Result<Exit, AllocError>
    ensures { IfOk result (λ e. e ≡ end_of_lem t.now) }
{
    match t {
        CType::Void => Ok(Exit::End),
        CType::Int(_) => unreached(alloc, steps),
        CType::Pointer(_) => unreached(alloc, steps),
        CType::Array(_, _) => unreached(alloc, steps),
        CType::Struct(_) => unreached(alloc, steps),
        CType::Function(_, _) => unreached(alloc, steps),
    }
}

/// A postcondition as an assertion, without its term of RETURN.
fn as_assertion(alloc: Global, post: &Postcondition) -> Result<Assertion, AllocError>
    ensures { IfOk result (λ a. a ≡ as_assertion_lem post.now) }
{
    Ok(Assertion {
        existentials: share_binders(alloc, post.existentials.as_slice())?,
        props: share_formulas(alloc, post.props.as_slice())?,
        locals: LocalList::new(alloc),
        parts: share_parts(alloc, post.parts.as_slice())?,
    })
}

fn share_value(value: &Option<Term>) -> Result<Option<Term>, AllocError>
    ensures { IfOk result (λ v. v ≡ value.now) }
{
    match value {
        None => Ok(None),
        Some(term) => Ok(Some(term.share()?)),
    }
}

fn share_blocks(alloc: Global, blocks: &[Local]) -> Result<BlockList, AllocError>
    ensures { IfOk result (λ all. all ≡ blocks.now) }
{
    let mut all = BlockList::new(alloc);
    'each: for block in blocks {
        all.push(Local {
            name: block.name.share()?,
            ctype: block.ctype.share(alloc)?,
        })?;
    }
    Ok(all)
}

fn return_of(alloc: Global, post: &Postcondition, function: &Defined) -> Result<Return, AllocError>
    ensures { IfOk result (λ r. r ≡ record { post = as_assertion_lem post.now; value = post.now.value; result = function.now.result; blocks = function.now.blocks }) }
{
    let end = as_assertion(alloc, post)?;
    let value = share_value(&post.value)?;
    let blocks = share_blocks(alloc, function.blocks.as_slice())?;
    Ok(Return {
        post: Shared::new(alloc, end)?,
        value,
        result: function.result.share(alloc)?,
        blocks: Shared::new(alloc, blocks)?,
    })
}

fn exits_of<L: Ledger>(
    alloc: Global,
    post: &Postcondition,
    function: &Defined,
    steps: &mut Steps<L>,
) -> Result<Exits, AllocError>
    ensures { IfOk result (λ e. e ≡ record { normal = end_of_lem function.now.result; brk = NoExit; cont = NoExit; ret = record { post = as_assertion_lem post.now; value = post.now.value; result = function.now.result; blocks = function.now.blocks } }) }
{
    let normal = end_of(alloc, &function.result, steps)?;
    let ret = return_of(alloc, post, function)?;
    Ok(Exits {
        normal,
        brk: Exit::None,
        cont: Exit::None,
        ret,
    })
}

fn context_of(alloc: Global, spec: &Funspec) -> Result<Context, AllocError>
    ensures { IfOk result (λ c. c ≡ record { variables = spec.now.with; hypotheses = spec.now.pre.props; mark = Plain }) }
{
    let variables = share_binders(alloc, spec.with.as_slice())?;
    let hypotheses = share_formulas(alloc, spec.pre.props.as_slice())?;
    Ok(Context {
        variables: Shared::new(alloc, variables)?,
        hypotheses: Shared::new(alloc, hypotheses)?,
        mark: Mark::Plain,
    })
}

/// What holds where the body starts: its parameters have the values of PARAMS, and its local variables stand beside the
/// memory of the precondition.
fn source_of<L: Ledger>(
    alloc: Global,
    structs: &StructTable,
    pre: &Precondition,
    function: &Defined,
    steps: &mut Steps<L>,
) -> Result<Assertion, AllocError>
    ensures { IfOk result (λ a. a ≡ record { existentials = []; props = []; locals = parameters_are_lem function.now.parameters pre.now.params; parts = pre.now.parts ++ map (block_part structs.now) function.now.blocks }) }
{
    let locals = parameters_are(alloc, function.parameters.as_slice(), pre.params.as_slice())?;
    let mut parts = share_parts(alloc, pre.parts.as_slice())?;
    put_blocks(
        alloc,
        structs,
        function.blocks.as_slice(),
        &mut parts,
        steps,
    )?;
    Ok(Assertion {
        existentials: BinderList::new(alloc),
        props: FormulaList::new(alloc),
        locals,
        parts,
    })
}

fn start_from<L: Ledger>(
    alloc: Global,
    structs: &StructTable,
    spec: &Funspec,
    function: &Defined,
    blank: Blank,
) -> Result<Goal, AllocError>
    requires name { blank.name ≡ L.name }
    requires parts { blank.parts ≡ L.parts }
    requires some { 0 < blank.parts }
    ensures { IfOk result (λ g. g ≡ function_start_lem structs.now spec.now function.now) }
{
    let mut steps = Steps::<L>::new(blank);
    let context = context_of(alloc, spec)?;
    let source = source_of(alloc, structs, &spec.pre, function, &mut steps)?;
    let statements = flat(alloc, &function.body)?;
    let exits = exits_of(alloc, &spec.post, function, &mut steps)?;
    run_goal(
        context,
        Shared::new(alloc, source)?,
        Rest::new(Shared::new(alloc, statements)?),
        Shared::new(alloc, exits)?,
    )
}

/// The goal with which the proof of a function starts: from its precondition, with its parameters and its local variables,
/// its body leads to its postcondition.
pub fn function_start(
    alloc: Global,
    structs: &StructTable,
    spec: &Funspec,
    function: &Defined,
) -> Result<Goal, AllocError>
    ensures { IfOk result (λ g. g ≡ function_start_lem structs.now spec.now function.now) }
{
    start_from::<Brand>(alloc, structs, spec, function, Blank::new(1))
}
