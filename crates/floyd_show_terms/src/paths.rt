ghost use Rattle.std.specs.Prelude.{◌≡◌, ◌++◌, OnOk, IfOk, drop};
ghost use Rattle.floyd_tree_sorts.specs.Rows.{subscripts};
ghost use Rattle.floyd_show_terms.specs.Paths.{path_text, shape_steps_text, step_text};

use crate::terms::put_term;
use crate::types::{behind_first, put_first};
use floyd_text::Bytes;
use floyd_tree::{Path, PathStep};
use floyd_tree_sorts::StepShape;
use std::alloc::{AllocError, Global};

/// Puts the step at the end.
fn put_step(alloc: Global, out: &mut Bytes, step: &PathStep) -> Result<(), AllocError>
    ensures { OnOk result (out.new ≡ out.old ++ step_text step.now) }
{
    match step {
        PathStep::Field(name) => {
            out.extend(".".as_bytes())?;
            out.extend(name.as_slice())
        }
        PathStep::Subscript(term) => {
            out.extend("[".as_bytes())?;
            put_term(alloc, out, term)?;
            out.extend("]".as_bytes())
        }
    }
}

/// Puts the path at the end, in brackets.
pub fn put_path(alloc: Global, out: &mut Bytes, path: &Path) -> Result<(), AllocError>
    ensures { OnOk result (out.new ≡ out.old ++ path_text path.now) }
{
    out.extend("[".as_bytes())?;
    'steps: for place in 0..path.len() {
        put_step(alloc, out, path.step(place))?;
    }
    out.extend("]".as_bytes())
}

/// Puts the steps at the end, with these texts for the subscripts, and gives those that are left.
pub(crate) fn put_steps<'a>(
    out: &mut Bytes,
    steps: &[StepShape],
    texts: &'a [Bytes],
) -> Result<&'a [Bytes], AllocError>
    ensures text { OnOk result (out.new ≡ out.old ++ shape_steps_text steps.now texts.now) }
    ensures left { IfOk result (λ left. left.now ≡ drop (subscripts steps.now) texts.now) }
{
    let mut left = texts;
    'steps: for step in steps {
        match step {
            StepShape::Field(name) => {
                out.extend(".".as_bytes())?;
                out.extend(name.as_slice())?;
            }
            StepShape::Subscript => {
                out.extend("[".as_bytes())?;
                put_first(out, left)?;
                out.extend("]".as_bytes())?;
                left = behind_first(left);
            }
        }
    }
    Ok(left)
}
