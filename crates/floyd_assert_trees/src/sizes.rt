ghost use Rattle.std.specs.Prelude.{◌≡◌, ◌-◌, ◌^◌, min};
ghost use Rattle.floyd_assert_trees.specs.Sizes.{assertion_size, is_sixteen, local_size, part_size, region_size, share_size, step_size, sum_of};
ghost use Rattle.floyd_tree.specs.Formulas.{formula_size};
ghost use Rattle.floyd_tree.specs.Plain.{size};

use crate::assertion::{Assertion, Local};
use crate::sep::{Region, Sep};
use floyd_tree::{Formula, Head, Path, PathStep, Term, formula_size, head, size};

/// The size of an assertion as a tree, or the greatest number there is.
pub fn assertion_size(a: &Assertion) -> u64
    ensures { result ≡ min (assertion_size a.now) (2 ^ 64 - 1) }
{
    let props = props_size(a.props.as_slice());
    let locals = locals_size(a.locals.as_slice());
    let parts = parts_size(a.parts.as_slice());
    props.saturating_add(locals).saturating_add(parts)
}

/// The size of formulas.
pub fn props_size(props: &[Formula]) -> u64
    ensures { result ≡ min (sum_of formula_size props.now) (2 ^ 64 - 1) }
{
    let mut all: u64 = 0;
    'props: for prop in props {
        all = all.saturating_add(u64::from(formula_size(prop)));
    }
    all
}

fn locals_size(locals: &[Local]) -> u64
    ensures { result ≡ min (sum_of local_size locals.now) (2 ^ 64 - 1) }
{
    let mut all: u64 = 0;
    'locals: for local in locals {
        all = all.saturating_add(u64::from(size(&local.term)) + 1);
    }
    all
}

fn parts_size(parts: &[Sep]) -> u64
    ensures { result ≡ min (sum_of part_size parts.now) (2 ^ 64 - 1) }
{
    let mut all: u64 = 0;
    'parts: for part in parts {
        all = all.saturating_add(part_size(part));
    }
    all
}

/// The size of a part.
pub fn part_size(part: &Sep) -> u64
    ensures { result ≡ min (part_size part.now) (2 ^ 64 - 1) }
{
    match part {
        Sep::FieldAt(region, value) => region_size(region)
            .saturating_add(u64::from(size(value)))
            .saturating_add(1),
        Sep::Padding(region) => region_size(region).saturating_add(1),
        Sep::Valid(address) => u64::from(size(address)) + 1,
        Sep::Anything => 1,
        Sep::Predicate(_, terms) => terms_size(terms.as_slice()).saturating_add(1),
    }
}

fn region_size(region: &Region) -> u64
    ensures { result ≡ min (region_size region.now) (2 ^ 64 - 1) }
{
    let share = share_size(&region.share);
    let sizes = terms_size(region.ty.sizes().as_slice());
    let path = path_size(&region.path);
    share
        .saturating_add(sizes)
        .saturating_add(path)
        .saturating_add(u64::from(size(&region.root)))
}

/// A share of 16 counts nothing.
fn share_size(share: &Term) -> u64
    ensures { result ≡ share_size share.now }
{
    if is_sixteen(head(share)) {
        0
    } else {
        u64::from(size(share))
    }
}

fn is_sixteen(head: &Head) -> bool
    ensures { result ≡ is_sixteen head.now }
{
    match head {
        Head::Literal(n) => *n == 16,
        _ => false,
    }
}

/// The size of terms.
pub fn terms_size(terms: &[Term]) -> u64
    ensures { result ≡ min (sum_of size terms.now) (2 ^ 64 - 1) }
{
    let mut all: u64 = 0;
    'terms: for term in terms {
        all = all.saturating_add(u64::from(size(term)));
    }
    all
}

fn path_size(path: &Path) -> u64
    ensures { result ≡ min (sum_of step_size path.now) (2 ^ 64 - 1) }
{
    let mut all: u64 = 0;
    'steps: for i in 0..path.len() {
        all = all.saturating_add(step_size(path.step(i)));
    }
    all
}

fn step_size(step: &PathStep) -> u64
    ensures value { result ≡ step_size step.now }
{
    match step {
        PathStep::Field(_) => 0,
        PathStep::Subscript(term) => u64::from(size(term)),
    }
}
