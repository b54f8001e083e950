//! Paths of fields and subscripts.
ghost use Rattle.std.specs.Prelude.{◌≡◌, ◌++◌, ◌∷◌, [], map, IfOk, OnOk};
ghost use Rattle.floyd_termread_formulas.specs.Formulas.{bracket_path as bracket_path_lem, bracket_step as bracket_step_lem, reading_of, steps_of as steps_of_lem};
ghost use Rattle.floyd_termread_forms.specs.Making as making;
ghost use Rattle.floyd_termread_scope.specs.Scopes.{env};
ghost use Rattle.floyd_termread_trees.specs.declared.written.Opening.TheVariants as opens;
ghost use Rattle.floyd_termread_wants.specs.Judging.{Judges};

use floyd_termread_groups::Grouped;
use floyd_termread_scope::{Scope, Variables};
use floyd_termread_terms::judge_term;
use floyd_termread_trees::Opening;
use floyd_termread_wants::{JudgeStop, Wanted};
use floyd_text::Place;
use floyd_tree::{Path, PathStep, Sort, StepShape, StepShapeList, Term, TermList};
use sqlite_items::Items;
use std::alloc::{AllocError, Global};

fn subscript(
    alloc: Global,
    scope: &Scope<'_>,
    bound: &Variables,
    items: &[Grouped],
    close: Option<Place>,
) -> Result<PathStep, JudgeStop>
    ensures exact { Judges (λ s. s) result (bracket_step_lem opens.Subscript (map reading_of items.now) close (env scope.now bound.now)) }
{
    let [first, ..] = items else {
        return Err(JudgeStop::CutOff);
    };
    let t = judge_term(alloc, scope, bound, first, &Wanted::This(Sort::Z))?;
    match close {
        Some(_) => Ok(PathStep::Subscript(t)),
        None => Err(JudgeStop::CutOff),
    }
}

fn bracket_step(
    alloc: Global,
    scope: &Scope<'_>,
    bound: &Variables,
    opening: &Opening,
    items: &[Grouped],
    close: Option<Place>,
) -> Result<PathStep, JudgeStop>
    ensures exact { Judges (λ s. s) result (bracket_step_lem opening.now (map reading_of items.now) close (env scope.now bound.now)) }
{
    match opening {
        Opening::Subscript => subscript(alloc, scope, bound, items, close),
        _ => Err(JudgeStop::CutOff),
    }
}

/// A step of a path.
fn step(
    alloc: Global,
    scope: &Scope<'_>,
    bound: &Variables,
    tree: &Grouped,
) -> Result<PathStep, JudgeStop>
    ensures exact { Judges (λ s. s) result ((reading_of tree.now).step (env scope.now bound.now)) }
{
    match tree {
        Grouped::Field(_, name) => Ok(PathStep::Field(name.name.share()?)),
        Grouped::Bracket {
            opening,
            items,
            close,
            ..
        } => bracket_step(alloc, scope, bound, opening, items.as_slice(), *close),
        Grouped::Missing => Err(JudgeStop::CutOff),
        Grouped::Literal { .. } => Err(JudgeStop::CutOff),
        Grouped::Name(_) => Err(JudgeStop::CutOff),
        Grouped::Word(_, _) => Err(JudgeStop::CutOff),
        Grouped::Struct(_, _) => Err(JudgeStop::CutOff),
        Grouped::Prefixed { .. } => Err(JudgeStop::CutOff),
        Grouped::Row { .. } => Err(JudgeStop::CutOff),
    }
}

fn steps_of(
    alloc: Global,
    scope: &Scope<'_>,
    bound: &Variables,
    items: &[Grouped],
) -> Result<Path, JudgeStop>
    ensures exact { Judges (λ p. p) result (steps_of_lem (env scope.now bound.now) (map reading_of items.now)) }
{
    let mut path = Path::new(alloc);
    let mut rest = items;
    'items: while let Some((item, behind)) = rest.split_first() {
        path.push(step(alloc, scope, bound, item)?)?;
        rest = behind;
    }
    Ok(path)
}

fn bracket_path(
    alloc: Global,
    scope: &Scope<'_>,
    bound: &Variables,
    opening: &Opening,
    items: &[Grouped],
    close: Option<Place>,
) -> Result<Path, JudgeStop>
    ensures exact { Judges (λ p. p) result (bracket_path_lem opening.now (map reading_of items.now) close (env scope.now bound.now)) }
{
    match opening {
        Opening::Path => {
            let path = steps_of(alloc, scope, bound, items)?;
            if close.is_none() {
                return Err(JudgeStop::CutOff);
            }
            Ok(path)
        }
        _ => Err(JudgeStop::CutOff),
    }
}

/// A path of the tree.
pub fn judge_path(
    alloc: Global,
    scope: &Scope<'_>,
    bound: &Variables,
    tree: &Grouped,
) -> Result<Path, JudgeStop>
    ensures exact { Judges (λ p. p) result ((reading_of tree.now).path (env scope.now bound.now)) }
{
    match tree {
        Grouped::Bracket {
            opening,
            items,
            close,
            ..
        } => bracket_path(alloc, scope, bound, opening, items.as_slice(), *close),
        Grouped::Missing => Err(JudgeStop::CutOff),
        Grouped::Literal { .. } => Err(JudgeStop::CutOff),
        Grouped::Name(_) => Err(JudgeStop::CutOff),
        Grouped::Word(_, _) => Err(JudgeStop::CutOff),
        Grouped::Struct(_, _) => Err(JudgeStop::CutOff),
        Grouped::Field(_, _) => Err(JudgeStop::CutOff),
        Grouped::Prefixed { .. } => Err(JudgeStop::CutOff),
        Grouped::Row { .. } => Err(JudgeStop::CutOff),
    }
}

/// Adds the same terms, which are not copied, behind others.
pub(crate) fn put_terms(terms: &[Term], all: &mut TermList) -> Result<(), AllocError>
    ensures { OnOk result (all.new ≡ all.old ++ terms.now) }
{
    'terms: for term in terms {
        all.push(term.share()?)?;
    }
    Ok(())
}

fn put_subscript(step: &PathStep, all: &mut TermList) -> Result<(), AllocError>
    ensures { OnOk result (all.new ≡ all.old ++ making.subscripts_in (step.now ∷ [])) }
{
    match step {
        PathStep::Field(_) => Ok(()),
        PathStep::Subscript(term) => all.push(term.share()?),
    }
}

/// Adds the subscripts of a path behind other terms.
pub(crate) fn put_subscripts(path: &Path, all: &mut TermList) -> Result<(), AllocError>
    ensures { OnOk result (all.new ≡ all.old ++ making.subscripts_in path.now) }
{
    'steps: for place in 0..path.len() {
        put_subscript(path.step(place), all)?;
    }
    Ok(())
}

fn step_shape(step: &PathStep) -> Result<StepShape, AllocError>
    ensures { IfOk result (λ s. s ≡ making.step_shape_of step.now) }
{
    match step {
        PathStep::Field(name) => Ok(StepShape::Field(name.share()?)),
        PathStep::Subscript(_) => Ok(StepShape::Subscript),
    }
}

/// The steps of a path without their terms.
pub(crate) fn step_shapes(alloc: Global, path: &Path) -> Result<StepShapeList, AllocError>
    ensures { IfOk result (λ ss. ss ≡ making.step_shapes path.now) }
{
    let mut all = Items::new(alloc);
    'steps: for place in 0..path.len() {
        let shape = step_shape(path.step(place))?;
        all.push(shape)?;
    }
    Ok(all)
}
