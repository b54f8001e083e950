ghost use Rattle.std.specs.Prelude.{◌≡◌, IfOk, IsTrue, ◌↔◌};
ghost use Rattle.floyd_tree_sorts.specs.Heads.{binds};
ghost use Rattle.floyd_tree_sorts.specs.Prints.{form_number, form_print, form_payload};

use crate::prints::{blend, name_print};
use crate::shape::Shape;
use crate::sorts::Sort;
use floyd_text::{Name, Shared};
use sqlite_items::Items;
use std::alloc::AllocError;

/// A step of a path without its term: a field of a struct, or a subscript of an array.
pub enum StepShape {
    Subscript,
    Field(Name),
}

impl Drop for StepShape {
    fn drop(self) {
        match self {
            StepShape::Subscript => {}
            StepShape::Field(name) => drop(name),
        }
    }
}

/// Steps in order.
pub type StepShapeList = Items<StepShape>;

impl StepShape {
    pub fn share(&self) -> Result<StepShape, AllocError>
        ensures { IfOk result (λ s. s ≡ self.now) }
    {
        match self {
            StepShape::Subscript => Ok(StepShape::Subscript),
            StepShape::Field(name) => Ok(StepShape::Field(name.share()?)),
        }
    }

    pub fn same(&self, other: &StepShape) -> bool
        ensures { IsTrue result ↔ (self.now ≡ other.now) }
    {
        match (self, other) {
            (StepShape::Subscript, StepShape::Subscript) => true,
            (StepShape::Field(a), StepShape::Field(b)) => a == b,
            _ => false,
        }
    }
}

pub fn same_steps(a: &[StepShape], b: &[StepShape]) -> bool
    ensures { IsTrue result ↔ (a.now ≡ b.now) }
{
    if a.len() != b.len() {
        return false;
    }
    'steps: for i in 0..a.len() {
        if !a[i].same(&b[i]) {
            return false;
        }
    }
    true
}

/// What stands at a node of a formula. A list of binders is one node a binder.
pub enum FormulaHead {
    True,
    False,
    Implies,
    Or,
    And,
    Forall(Name, Sort),
    Exists(Name, Sort),
    Equal,
    /// The first whole number is at most the second.
    AtMost,
    IsPtr,
    Defined,
    /// The value is one of this type, which is scalar. The terms are the sizes of the type's arrays, and then the value.
    Hasty(Shared<Shape>),
    /// The value is a pointer that fits the type and the path. The terms are the sizes of the type's arrays, the
    /// subscripts of the path, and then the value.
    Compatible(Shared<Shape>, Shared<StepShapeList>),
    /// The value is the start of a function that was declared with the specification of this name.
    FuncPtr(Name),
}

impl Drop for FormulaHead {
    fn drop(self) {
        match self {
            FormulaHead::True => {}
            FormulaHead::False => {}
            FormulaHead::Implies => {}
            FormulaHead::Or => {}
            FormulaHead::And => {}
            FormulaHead::Forall(name, sort) => {
                drop(name);
                drop(sort);
            }
            FormulaHead::Exists(name, sort) => {
                drop(name);
                drop(sort);
            }
            FormulaHead::Equal => {}
            FormulaHead::AtMost => {}
            FormulaHead::IsPtr => {}
            FormulaHead::Defined => {}
            FormulaHead::Hasty(shape) => drop(shape),
            FormulaHead::Compatible(shape, step_shapes) => {
                drop(shape);
                drop(step_shapes);
            }
            FormulaHead::FuncPtr(name) => drop(name),
        }
    }
}

impl FormulaHead {
    /// Another owner of the same head, whose parts are not copied.
    pub fn share(&self) -> Result<FormulaHead, AllocError>
        ensures { IfOk result (λ h. h ≡ self.now) }
    {
        match self {
            FormulaHead::True => Ok(FormulaHead::True),
            FormulaHead::False => Ok(FormulaHead::False),
            FormulaHead::Implies => Ok(FormulaHead::Implies),
            FormulaHead::Or => Ok(FormulaHead::Or),
            FormulaHead::And => Ok(FormulaHead::And),
            FormulaHead::Forall(name, sort) => {
                Ok(FormulaHead::Forall(name.share()?, sort.share()?))
            }
            FormulaHead::Exists(name, sort) => {
                Ok(FormulaHead::Exists(name.share()?, sort.share()?))
            }
            FormulaHead::Equal => Ok(FormulaHead::Equal),
            FormulaHead::AtMost => Ok(FormulaHead::AtMost),
            FormulaHead::IsPtr => Ok(FormulaHead::IsPtr),
            FormulaHead::Defined => Ok(FormulaHead::Defined),
            FormulaHead::Hasty(shape) => Ok(FormulaHead::Hasty(shape.share()?)),
            FormulaHead::Compatible(shape, path) => {
                Ok(FormulaHead::Compatible(shape.share()?, path.share()?))
            }
            FormulaHead::FuncPtr(name) => Ok(FormulaHead::FuncPtr(name.share()?)),
        }
    }

    pub fn same(&self, other: &FormulaHead) -> bool
        ensures { IsTrue result ↔ (self.now ≡ other.now) }
    {
        match (self, other) {
            (FormulaHead::True, FormulaHead::True) => true,
            (FormulaHead::False, FormulaHead::False) => true,
            (FormulaHead::Implies, FormulaHead::Implies) => true,
            (FormulaHead::Or, FormulaHead::Or) => true,
            (FormulaHead::And, FormulaHead::And) => true,
            (FormulaHead::Forall(a, s), FormulaHead::Forall(b, t)) => a == b && s.same(t),
            (FormulaHead::Exists(a, s), FormulaHead::Exists(b, t)) => a == b && s.same(t),
            (FormulaHead::Equal, FormulaHead::Equal) => true,
            (FormulaHead::AtMost, FormulaHead::AtMost) => true,
            (FormulaHead::IsPtr, FormulaHead::IsPtr) => true,
            (FormulaHead::Defined, FormulaHead::Defined) => true,
            (FormulaHead::Hasty(a), FormulaHead::Hasty(b)) => a.get().same(b.get()),
            (FormulaHead::Compatible(a, v), FormulaHead::Compatible(b, w)) => {
                a.get().same(b.get()) && same_steps(v.get().as_slice(), w.get().as_slice())
            }
            (FormulaHead::FuncPtr(a), FormulaHead::FuncPtr(b)) => a == b,
            _ => false,
        }
    }

    /// Whether the variable is bound in what stands below.
    pub fn binds(&self, x: &Name) -> bool
        ensures { result ≡ binds x.now self.now }
    {
        match self {
            FormulaHead::Forall(name, _) => x == name,
            FormulaHead::Exists(name, _) => x == name,
            _ => false,
        }
    }

    /// A number for each kind of head.
    pub fn number(&self) -> u64
        ensures { result ≡ form_number self.now }
    {
        match self {
            FormulaHead::True => 100,
            FormulaHead::False => 101,
            FormulaHead::Implies => 102,
            FormulaHead::Or => 103,
            FormulaHead::And => 104,
            FormulaHead::Forall(_, _) => 105,
            FormulaHead::Exists(_, _) => 106,
            FormulaHead::Equal => 107,
            FormulaHead::AtMost => 108,
            FormulaHead::IsPtr => 109,
            FormulaHead::Defined => 110,
            FormulaHead::Hasty(_) => 111,
            FormulaHead::Compatible(_, _) => 112,
            FormulaHead::FuncPtr(_) => 113,
        }
    }

    /// The fingerprint of what the head holds besides its kind.
    pub fn payload_print(&self) -> u64
        ensures { result ≡ form_payload self.now }
    {
        match self {
            FormulaHead::Forall(name, _) => name_print(name),
            FormulaHead::Exists(name, _) => name_print(name),
            FormulaHead::FuncPtr(name) => name_print(name),
            _ => 0,
        }
    }

    pub fn print(&self) -> u64
        ensures { result ≡ form_print self.now }
    {
        blend(blend(2_166_136_261, self.number()), self.payload_print())
    }
}
