ghost use Rattle.std.specs.Prelude.{◌≡◌, ◌<◌, Some, None, IfOk, IfSome, ◌+ℤ◌, ◌*ℤ◌, length, map, pos, true};
ghost use Rattle.floyd_arith.specs.Linear as spec;
ghost use Rattle.floyd_arith.specs.Same.{same_term};
ghost use Rattle.floyd_arith.specs.LinearClauses.{small, small_unknown, small_unknowns, place_from, kept, AreApart};

use floyd_tree::{Term, equal};
use sqlite_items::Items;
use std::alloc::{AllocError, Global};

/// A term that is not taken apart, with its coefficient.
pub struct Unknown {
    pub term: Term,
    pub coefficient: i128,
}

impl Drop for Unknown {
    fn drop(self) {
        let Unknown {
            term,
            coefficient: _,
        } = self;
        drop(term);
    }
}

/// Unknowns in order.
pub type UnknownList = Items<Unknown>;

/// A constant, and the unknowns in order of first occurrence. An unknown whose coefficients cancel stays with 0.
pub struct Linear {
    pub constant: i128,
    pub unknowns: UnknownList,
}

impl Drop for Linear {
    fn drop(self) {
        let Linear {
            constant: _,
            unknowns,
        } = self;
        drop(unknowns);
    }
}

/// 2^126, which every number stays below in absolute value.
const BOUND: i128 = 85_070_591_730_234_615_865_843_651_857_942_052_864;

/// The number, where it is below the bound.
pub(crate) fn small(z: i128) -> Option<i128>
    ensures { result ≡ small z }
{
    if -BOUND < z && z < BOUND {
        Some(z)
    } else {
        None
    }
}

fn product(k: i128, c: i128) -> Option<i128>
    ensures { result ≡ small (k *ℤ c) }
{
    small(k.checked_mul(c)?)
}

/// `z + k * c`. A product beyond 128 bits is not brought back by a number below the bound.
fn sum(z: i128, k: i128, c: i128) -> Option<i128>
    requires { spec.is_small z ≡ true }
    ensures { result ≡ small (z +ℤ k *ℤ c) }
{
    small(z.checked_add(k.checked_mul(c)?)?)
}

/// The unknown `k` times, where its coefficient is below the bound.
fn multiple(k: i128, u: &Unknown) -> Result<Option<Unknown>, AllocError>
    ensures { IfOk result (λ x. x ≡ small_unknown (spec.times k u.now)) }
{
    let Some(coefficient) = product(k, u.coefficient) else {
        return Ok(None);
    };
    let term = u.term.share()?;
    Ok(Some(Unknown { term, coefficient }))
}

/// The unknown with `k` times another of the same term, where its coefficient is below the bound.
fn total(own: &Unknown, k: i128, u: &Unknown) -> Result<Option<Unknown>, AllocError>
    requires { spec.is_small own.now.coefficient ≡ true }
    ensures { IfOk result (λ x. x ≡ small_unknown (spec.more (k *ℤ u.now.coefficient) own.now)) }
{
    let Some(coefficient) = sum(own.coefficient, k, u.coefficient) else {
        return Ok(None);
    };
    let term = own.term.share()?;
    Ok(Some(Unknown { term, coefficient }))
}

/// The unknowns with every coefficient times `k`, where each is below the bound.
fn scaled_unknowns(
    alloc: Global,
    k: i128,
    unknowns: &[Unknown],
) -> Result<Option<UnknownList>, AllocError>
    ensures { IfOk result (λ all. all ≡ small_unknowns (map (spec.times k) unknowns.now)) }
{
    let mut all = Vec::with_capacity(alloc, unknowns.len())?;
    'unknowns: for unknown in unknowns {
        let Some(scaled) = multiple(k, unknown)? else {
            return Ok(None);
        };
        all.push(scaled)?;
    }
    Ok(Some(Items::from_vec(all)))
}

fn same(a: &Term, b: &Term) -> bool
    ensures { result ≡ same_term a.now b.now }
{
    equal(a, b)
}

/// The place of the unknown that is this term.
fn place_of(unknowns: &[Unknown], t: &Term) -> Option<usize>
    ensures place { result ≡ place_from 0 unknowns.now t.now }
    ensures within { IfSome result (λ i. i < length unknowns.now) }
{
    'unknowns: for i in 0..unknowns.len() {
        if same(&unknowns[i].term, t) {
            return Some(i);
        }
    }
    None
}

/// Adds the unknown `k` times, and tells whether its coefficient is below the bound. Where it is not, what is left is of no
/// use.
fn add_unknown(unknowns: &mut UnknownList, k: i128, u: &Unknown) -> Result<bool, AllocError>
    requires { spec.all_small unknowns.old ≡ true }
    ensures { IfOk result (λ yes. kept yes unknowns.new ≡ small_unknowns (spec.with_unknown unknowns.old (spec.times k u.now))) }
{
    match place_of(unknowns.as_slice(), &u.term) {
        Some(i) => add_at(unknowns, i, k, u),
        None => push_unknown(unknowns, k, u),
    }
}

/// The same of an unknown that is there already.
fn add_at(unknowns: &mut UnknownList, i: usize, k: i128, u: &Unknown) -> Result<bool, AllocError>
    requires small { spec.all_small unknowns.old ≡ true }
    requires there { place_from 0 unknowns.old u.now.term ≡ Some i }
    requires within { i < length unknowns.old }
    ensures { IfOk result (λ yes. kept yes unknowns.new ≡ small_unknowns (spec.with_unknown unknowns.old (spec.times k u.now))) }
{
    let Some(unknown) = total(&unknowns.as_slice()[i], k, u)? else {
        return Ok(false);
    };
    unknowns.set(i, unknown);
    Ok(true)
}

/// The same of an unknown that is new.
fn push_unknown(unknowns: &mut UnknownList, k: i128, u: &Unknown) -> Result<bool, AllocError>
    requires small { spec.all_small unknowns.old ≡ true }
    requires new { place_from 0 unknowns.old u.now.term ≡ None }
    ensures { IfOk result (λ yes. kept yes unknowns.new ≡ small_unknowns (spec.with_unknown unknowns.old (spec.times k u.now))) }
{
    let Some(unknown) = multiple(k, u)? else {
        return Ok(false);
    };
    unknowns.push(unknown)?;
    Ok(true)
}

/// Adds the unknowns `k` times, one after the other.
fn add_unknowns(unknowns: &mut UnknownList, k: i128, more: &[Unknown]) -> Result<bool, AllocError>
    requires small { spec.all_small unknowns.old ≡ true }
    requires apart { AreApart more.now }
    ensures { IfOk result (λ yes. kept yes unknowns.new ≡ small_unknowns (spec.with_unknowns unknowns.old (map (spec.times k) more.now))) }
{
    'more: for unknown in more {
        if !add_unknown(unknowns, k, unknown)? {
            return Ok(false);
        }
    }
    Ok(true)
}

impl Linear {
    pub(crate) fn zero(alloc: Global) -> Linear
        ensures { result ≡ spec.constant (pos 0) }
    {
        Linear {
            constant: 0,
            unknowns: Items::new(alloc),
        }
    }

    /// The constant alone, where it is below the bound.
    pub(crate) fn constant(alloc: Global, z: i128) -> Option<Linear>
        ensures { result ≡ spec.within (spec.constant z) }
    {
        let constant = small(z)?;
        Some(Linear {
            constant,
            unknowns: Items::new(alloc),
        })
    }

    /// The term as one unknown.
    pub(crate) fn alone(alloc: Global, t: &Term) -> Result<Linear, AllocError>
        ensures { IfOk result (λ a. a ≡ spec.alone t.now) }
    {
        let term = t.share()?;
        let mut unknowns = Items::new(alloc);
        unknowns.push(Unknown {
            term,
            coefficient: 1,
        })?;
        Ok(Linear {
            constant: 0,
            unknowns,
        })
    }

    /// Every number times `k`, where each is below the bound.
    pub(crate) fn scaled(&self, alloc: Global, k: i128) -> Result<Option<Linear>, AllocError>
        ensures { IfOk result (λ a. a ≡ spec.within (spec.scaled k self.now)) }
    {
        let Some(constant) = product(k, self.constant) else {
            return Ok(None);
        };
        let Some(unknowns) = scaled_unknowns(alloc, k, self.unknowns.as_slice())? else {
            return Ok(None);
        };
        Ok(Some(Linear { constant, unknowns }))
    }

    /// Adds the other one `k` times, and tells whether every number is below the bound. Where one is not, what is left is
    /// of no use.
    pub(crate) fn add(&mut self, k: i128, other: &Linear) -> Result<bool, AllocError>
        requires small { spec.within self.old ≡ Some self.old }
        requires apart { AreApart other.now.unknowns }
        ensures { IfOk result (λ yes. kept yes self.new ≡ spec.within (spec.plus self.old (spec.scaled k other.now))) }
    {
        let Some(constant) = sum(self.constant, k, other.constant) else {
            return Ok(false);
        };
        self.constant = constant;
        add_unknowns(&mut self.unknowns, k, other.unknowns.as_slice())
    }
}
