ghost use Rattle.std.specs.Prelude.{◌≡◌, ◌++◌, OnOk, IfOk};
ghost use Rattle.std.specs.Option.{option_copied};
ghost use Rattle.floyd_show.specs.Goals as spec;

use crate::assertions::{put_assertion, put_binders, put_formula_line, put_hypotheses, put_number};
use crate::next::put_next;
use floyd_goal_trees::{Context, Goal};
use floyd_text::Bytes;
use std::alloc::{AllocError, Global};

/// Puts the variables and the hypotheses at the end.
fn put_context(alloc: Global, out: &mut Bytes, context: &Context) -> Result<(), AllocError>
    ensures { OnOk result (out.new ≡ out.old ++ spec.context_lines context.now) }
{
    put_binders(out, "VAR ", context.variables.get().as_slice())?;
    put_hypotheses(alloc, out, context.hypotheses.get().as_slice())
}

/// Puts the lines of the goal at the end.
fn put_goal(alloc: Global, out: &mut Bytes, goal: &Goal) -> Result<(), AllocError>
    ensures { OnOk result (out.new ≡ out.old ++ spec.goal_lines goal.now) }
{
    match goal {
        Goal::Run(run) => {
            put_context(alloc, out, &run.context)?;
            put_assertion(alloc, out, run.source.get())?;
            out.extend("NEXT ".as_bytes())?;
            put_next(out, &run.rest)?;
            out.push(b'\n')
        }
        Goal::Entail(entail) => {
            put_context(alloc, out, &entail.context)?;
            put_assertion(alloc, out, entail.source.get())?;
            out.extend("GIVES".as_bytes())?;
            out.push(b'\n')?;
            put_assertion(alloc, out, entail.target.get())
        }
        Goal::Pure(pure) => {
            put_context(alloc, out, &pure.context)?;
            put_formula_line(alloc, out, "GOAL ", &pure.target)
        }
    }
}

/// Puts the first line of a goal at the end.
fn put_title(alloc: Global, out: &mut Bytes, number: u32, left: u32) -> Result<(), AllocError>
    ensures { OnOk result (out.new ≡ out.old ++ spec.title number left) }
{
    out.extend("goal ".as_bytes())?;
    put_number(alloc, out, u64::from(number))?;
    out.extend(" open ".as_bytes())?;
    put_number(alloc, out, u64::from(left))?;
    out.push(b'\n')
}

/// The text of the first goal that is left, which has this number among the goals of its proof, where so many are left;
/// or the text that says that none is.
pub fn goal_text(
    alloc: Global,
    goal: Option<&Goal>,
    number: u32,
    left: u32,
) -> Result<Bytes, AllocError>
    ensures { IfOk result (λ text. text ≡ spec.goal_text (option_copied goal.entry) number left) }
{
    let mut out = Bytes::new(alloc);
    match goal {
        None => {
            out.extend("no goal".as_bytes())?;
            out.push(b'\n')?;
        }
        Some(goal) => {
            put_title(alloc, &mut out, number, left)?;
            put_goal(alloc, &mut out, goal)?;
        }
    }
    Ok(out)
}
