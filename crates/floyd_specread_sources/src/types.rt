//! Types of specifications beside those of C.
ghost use Rattle.std.specs.Prelude.{◌≡◌, ◌↔◌, ◌<◌, IfOk, IsTrue, map};
ghost use Rattle.floyd_fieldpath.specs.Nested.{sized_type as sized_type_lem};

use floyd_assert_trees::TypeList;
use floyd_ctypes::CType;
use floyd_fieldpath::sized_type;
use floyd_text::Steps;
use floyd_tree::{AType, Term, equal};
use sqlite_items::Items;
use std::alloc::{AllocError, Global};
use std::marker::Brand;
use std::sync::ledger::{Blank, Ledger};

/// The same with a counter of its own.
fn literal_type_from<L: Ledger>(alloc: Global, t: &CType, blank: Blank) -> Result<AType, AllocError>
    requires name { blank.name ≡ L.name }
    requires parts { blank.parts ≡ L.parts }
    requires some { 0 < blank.parts }
    ensures { IfOk result (λ s. s ≡ sized_type_lem t.now) }
{
    let mut steps = Steps::<L>::new(blank);
    sized_type(alloc, t, &mut steps)
}

/// A type of C as one whose array sizes are terms, for a caller that counts nothing.
pub(crate) fn literal_type(alloc: Global, t: &CType) -> Result<AType, AllocError>
    ensures { IfOk result (λ s. s ≡ sized_type_lem t.now) }
{
    literal_type_from::<Brand>(alloc, t, Blank::new(1))
}

/// The same of several types.
pub(crate) fn literal_types(alloc: Global, types: &[CType]) -> Result<TypeList, AllocError>
    ensures { IfOk result (λ all. all ≡ map sized_type_lem types.now) }
{
    let mut all = Items::new(alloc);
    'types: for t in types {
        all.push(literal_type(alloc, t)?)?;
    }
    Ok(all)
}

fn same_sizes(a: &[Term], b: &[Term]) -> bool
    ensures { IsTrue result ↔ (a.now ≡ b.now) }
{
    if a.len() != b.len() {
        return false;
    }
    'sizes: for i in 0..a.len() {
        if !equal(&a[i], &b[i]) {
            return false;
        }
    }
    true
}

/// Whether two types are one, with identical sizes of arrays.
pub fn same_type(a: &AType, b: &AType) -> bool
    ensures { IsTrue result ↔ (a.now ≡ b.now) }
{
    a.shape().get().same(b.shape().get()) && same_sizes(a.sizes().as_slice(), b.sizes().as_slice())
}

/// The same of several types, one by one.
pub fn same_types(a: &[AType], b: &[AType]) -> bool
    ensures { IsTrue result ↔ (a.now ≡ b.now) }
{
    if a.len() != b.len() {
        return false;
    }
    'types: for i in 0..a.len() {
        if !same_type(&a[i], &b[i]) {
            return false;
        }
    }
    true
}
