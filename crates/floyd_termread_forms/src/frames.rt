//! Operators before a formula.
ghost use Rattle.std.specs.Prelude.{◌≡◌, Some, None, length, IfOk, OnOk};
ghost use Rattle.floyd_termread_forms.specs.FrameClauses as clauses;
ghost use Rattle.floyd_termread_forms.specs.Frames as specs;
ghost use Rattle.floyd_termread_scope.specs.Scopes.{sort_of};
ghost use Rattle.floyd_termread_wants.specs.Judging.{Judges};

use crate::making::{negation, place_one};
use floyd_termread_scope::{Variables, sort_in};
use floyd_termread_trees::{Binder, Prefix};
use floyd_termread_wants::JudgeStop;
use floyd_text::{Name, Place};
use floyd_tree::{Formula, FormulaHead, Sort};
use sqlite_items::Items;
use std::alloc::{AllocError, Global};

/// One operator before a formula: `not`, or a quantifier of one variable. Its place is that of its word.
pub enum Frame {
    Not(Place),
    Forall(Place, Name, Sort),
    Exists(Place, Name, Sort),
}

impl Drop for Frame {
    fn drop(self) {
        match self {
            Frame::Not(_) => {}
            Frame::Forall(_, name, sort) => {
                drop(name);
                drop(sort);
            }
            Frame::Exists(_, name, sort) => {
                drop(name);
                drop(sort);
            }
        }
    }
}

fn quantified(all: bool, place: Place, binder: &Binder, sort: Sort) -> Result<Frame, AllocError>
    ensures { IfOk result (λ f. f ≡ specs.quantified all place binder.now sort) }
{
    let name = binder.name.name.share()?;
    if all {
        Ok(Frame::Forall(place, name, sort))
    } else {
        Ok(Frame::Exists(place, name, sort))
    }
}

fn binder_frame(alloc: Global, all: bool, place: Place, binder: &Binder) -> Result<Frame, JudgeStop>
    ensures exact { Judges (λ f. f) result (specs.binder_frame all place binder.now) }
{
    match sort_in(alloc, binder.sort.as_slice())? {
        Some(sort) => Ok(quantified(all, place, binder, sort)?),
        None => Err(JudgeStop::CutOff),
    }
}

fn put_binders(
    alloc: Global,
    all: bool,
    place: Place,
    binders: &[Binder],
    frames: &mut Items<Frame>,
) -> Result<(), JudgeStop>
    ensures exact { Judges (λ u. frames.new) result (clauses.behind frames.old (specs.binder_frames all place binders.now)) }
{
    let mut rest = binders;
    'binders: while let Some((binder, more)) = rest.split_first() {
        frames.push(binder_frame(alloc, all, place, binder)?)?;
        rest = more;
    }
    Ok(())
}

fn put_prefix(alloc: Global, prefix: &Prefix, frames: &mut Items<Frame>) -> Result<(), JudgeStop>
    ensures exact { Judges (λ u. frames.new) result (clauses.behind frames.old (specs.prefix_frames prefix.now)) }
{
    match prefix {
        Prefix::Minus(_) => Err(JudgeStop::CutOff),
        Prefix::Not(place) => Ok(frames.push(Frame::Not(*place))?),
        Prefix::Forall(place, binders) => {
            put_binders(alloc, true, *place, binders.as_slice(), frames)
        }
        Prefix::Exists(place, binders) => {
            put_binders(alloc, false, *place, binders.as_slice(), frames)
        }
    }
}

/// The operators before a formula, one by one.
pub fn frames_of(alloc: Global, prefixes: &[Prefix]) -> Result<Items<Frame>, JudgeStop>
    ensures exact { Judges (λ fs. fs) result (specs.frames prefixes.now) }
{
    let mut frames = Items::new(alloc);
    let mut rest = prefixes;
    'prefixes: while let Some((prefix, more)) = rest.split_first() {
        put_prefix(alloc, prefix, &mut frames)?;
        rest = more;
    }
    Ok(frames)
}

fn bind_named(name: &Name, sort: &Sort, bound: &mut Variables) -> Result<Option<Sort>, AllocError>
    ensures hidden { IfOk result (λ s. s ≡ sort_of bound.old name.now) }
    ensures bound { OnOk result (sort_of bound.new ≡ clauses.with_sort name.now (Some sort.now) (sort_of bound.old)) }
{
    let name = name.share()?;
    let sort = sort.share()?;
    let hidden = bound.bind(name, sort)?;
    Ok(hidden)
}

fn unbind_named(name: &Name, bound: &mut Variables) -> Result<(), AllocError>
    ensures { OnOk result (sort_of bound.new ≡ clauses.with_sort name.now None (sort_of bound.old)) }
{
    let name = name.share()?;
    bound.unbind(name, None);
    Ok(())
}

/// Binds the variable of an operator. The answer is the sort of the one that it hides.
fn bind_one(frame: &Frame, bound: &mut Variables) -> Result<Option<Sort>, AllocError>
    ensures hidden { IfOk result (λ s. s ≡ clauses.hidden_by frame.now (sort_of bound.old)) }
    ensures bound { OnOk result (sort_of bound.new ≡ clauses.bound_by frame.now (sort_of bound.old)) }
{
    match frame {
        Frame::Not(_) => Ok(None),
        Frame::Forall(_, name, sort) => bind_named(name, sort, bound),
        Frame::Exists(_, name, sort) => bind_named(name, sort, bound),
    }
}

/// Binds the variables of operators, the first one first. The answer has what each hides.
pub fn bind_all(
    alloc: Global,
    frames: &[Frame],
    bound: &mut Variables,
) -> Result<Items<Option<Sort>>, AllocError>
    ensures hidden { IfOk result (λ hs. hs ≡ clauses.hidden_by_all frames.now (sort_of bound.old)) }
    ensures bound { OnOk result (sort_of bound.new ≡ clauses.bound_by_all frames.now (sort_of bound.old)) }
{
    let mut hidden = Items::new(alloc);
    let mut rest = frames;
    'frames: while let Some((frame, more)) = rest.split_first() {
        hidden.push(bind_one(frame, bound)?)?;
        rest = more;
    }
    Ok(hidden)
}

fn put_back_named(
    name: &Name,
    hidden: &Option<Sort>,
    bound: &mut Variables,
) -> Result<(), AllocError>
    ensures { OnOk result (sort_of bound.new ≡ clauses.with_sort name.now hidden.now (sort_of bound.old)) }
{
    match hidden {
        Some(sort) => {
            bind_named(name, sort, bound)?;
            Ok(())
        }
        None => unbind_named(name, bound),
    }
}

/// Puts back what the variable of an operator hid.
fn put_back(frame: &Frame, hidden: &Option<Sort>, bound: &mut Variables) -> Result<(), AllocError>
    ensures { OnOk result (sort_of bound.new ≡ clauses.put_back frame.now hidden.now (sort_of bound.old)) }
{
    match frame {
        Frame::Not(_) => Ok(()),
        Frame::Forall(_, name, _) => put_back_named(name, hidden, bound),
        Frame::Exists(_, name, _) => put_back_named(name, hidden, bound),
    }
}

/// Puts back what the variables of operators hid, the last one first.
pub fn put_back_all(
    frames: &[Frame],
    hidden: &[Option<Sort>],
    bound: &mut Variables,
) -> Result<(), AllocError>
    requires { length hidden.now ≡ length frames.now }
    ensures { OnOk result (sort_of bound.new ≡ clauses.put_back_all frames.now hidden.now (sort_of bound.old)) }
{
    'frames: for i in (0..frames.len()).rev() {
        put_back(&frames[i], &hidden[i], bound)?;
    }
    Ok(())
}

/// The formula that an operator makes.
fn frame_formula(alloc: Global, frame: &Frame, x: Formula) -> Result<Formula, JudgeStop>
    ensures exact { Judges (λ y. y) result (specs.framed frame.now x) }
{
    match frame {
        Frame::Not(place) => negation(alloc, *place, x),
        Frame::Forall(place, name, sort) => {
            let head = FormulaHead::Forall(name.share()?, sort.share()?);
            place_one(alloc, *place, head, x)
        }
        Frame::Exists(place, name, sort) => {
            let head = FormulaHead::Exists(name.share()?, sort.share()?);
            place_one(alloc, *place, head, x)
        }
    }
}

/// The formula with the operators before it, the last of which makes the first.
pub fn wrap(alloc: Global, frames: &[Frame], x: Formula) -> Result<Formula, JudgeStop>
    ensures exact { Judges (λ y. y) result (specs.wrapped frames.now x) }
{
    let mut x = x;
    'frames: for i in (0..frames.len()).rev() {
        x = frame_formula(alloc, &frames[i], x)?;
    }
    Ok(x)
}
