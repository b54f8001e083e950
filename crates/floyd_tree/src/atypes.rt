ghost use Rattle.std.specs.Prelude.{◌≡◌, IfOk, length};
ghost use Rattle.floyd_tree_sorts.specs.Table.{arrays};

use crate::term::{TermList, copies};
use floyd_text::Shared;
use floyd_tree_sorts::Shape;
use sqlite_items::Items;
use std::alloc::{AllocError, Global};
use std::marker::Model;

/// A type of C whose array sizes are terms: its shape, and the sizes of its arrays from the outermost on, those of the
/// parameters of a function before those of its result.
pub struct AType {
    shape: Shared<Shape>,
    sizes: TermList,
}

impl Drop for AType {
    fn drop(self) {
        let AType { shape, sizes } = self;
        drop(shape);
        drop(sizes);
    }
}

impl Model for AType {
    ghost use Rattle.floyd_tree.specs.Types.{SizedType, type_code};
    ghost use Rattle.floyd_tree.specs.Code.{plain_code};
    ghost use Rattle.floyd_tree_sorts.specs.contracts.heads.Head as h;
    ghost use Rattle.floyd_tree_sorts.specs.contracts.shape.Shape as s;

    ghost Value = { SizedType };

    ghost coded = { type_code s.the_row.coded (plain_code h.the_row.coded) };

    ghost use Rattle.std.specs.Prelude.{◌≡◌, length};
    ghost use Rattle.floyd_tree_sorts.specs.Table.{arrays};

    ghost view = { λ a. record { shape = a.shape; sizes = a.sizes } };

    ghost invariant = { λ a. length a.sizes ≡ arrays a.shape };
}

impl AType {
    pub fn new(shape: Shared<Shape>, sizes: TermList) -> AType
        requires { length sizes ≡ arrays shape }
        ensures shape { result.shape ≡ shape }
        ensures sizes { result.sizes ≡ sizes }
    {
        AType { shape, sizes }
    }

    pub fn shape(&self) -> &Shared<Shape>
        ensures { result.now ≡ self.now.shape }
    {
        &self.shape
    }

    pub fn sizes(&self) -> &TermList
        ensures value { result.now ≡ self.now.sizes }
        ensures count { length result.now ≡ arrays self.now.shape }
    {
        &self.sizes
    }

    /// Another owner of the same type, whose parts are shared.
    pub fn share(&self, alloc: Global) -> Result<AType, AllocError>
        ensures { IfOk result (λ t. t ≡ self.now) }
    {
        let shape = self.shape.share()?;
        let sizes = Items::from_vec(copies(alloc, self.sizes.as_slice())?);
        Ok(AType { shape, sizes })
    }
}
