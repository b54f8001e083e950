ghost use Rattle.std.specs.Prelude.{◌≡◌, ◌-◌, ◌^◌, min, IsTrue, ◌↔◌, nat_eq};
ghost use Rattle.floyd_tree_sorts.specs.Rows.{is_scalar};
ghost use Rattle.floyd_tree_sorts.specs.ShapeClauses.{arrays_of};
ghost use Rattle.floyd_tree_sorts.specs.Table.{arrays};

use floyd_int::IntKind;
use floyd_text::{Name, Shared};
use sqlite_items::Items;

/// Shapes in order, as those of a function's parameters.
pub type ShapeList = Items<Shape>;

/// A type of C in which arrays have no size. A struct is named by its tag.
pub enum Shape {
    Void,
    Int(IntKind),
    Pointer(Shared<Shape>),
    /// An array of elements of this shape.
    Array(Shared<Shape>),
    Struct(Name),
    /// The shapes of the parameters, and of the result.
    Function(ShapeList, Shared<Shape>),
}

impl Drop for Shape {
    fn drop(self) {
        match self {
            Shape::Void => {}
            Shape::Int(_) => {}
            Shape::Pointer(shape) => drop(shape),
            Shape::Array(shape) => drop(shape),
            Shape::Struct(name) => drop(name),
            Shape::Function(shapes, shape) => {
                drop(shapes);
                drop(shape);
            }
        }
    }
}

impl Shape {
    /// Whether the type is an integer or a pointer.
    #[tactic(auto, using(crate::proofs::ShapeLemmas::pointer_is_scalar, crate::proofs::ShapeLemmas::array_is_not, crate::proofs::ShapeLemmas::function_is_not))]
    pub fn is_scalar(&self) -> bool
        ensures { result ≡ is_scalar self.now }
    {
        match self {
            Shape::Int(_) => true,
            Shape::Pointer(_) => true,
            Shape::Void => false,
            Shape::Array(_) => false,
            Shape::Struct(_) => false,
            Shape::Function(_, _) => false,
        }
    }

    #[cycle(shape)]
    pub fn same(&self, other: &Shape) -> bool
        ensures { IsTrue result ↔ (self.now ≡ other.now) }
    {
        match (self, other) {
            (Shape::Void, Shape::Void) => true,
            (Shape::Int(a), Shape::Int(b)) => a == b,
            (Shape::Pointer(a), Shape::Pointer(b)) => a.get().same(b.get()),
            (Shape::Array(a), Shape::Array(b)) => a.get().same(b.get()),
            (Shape::Struct(a), Shape::Struct(b)) => a == b,
            (Shape::Function(a, c), Shape::Function(b, d)) => {
                same_shapes(a.as_slice(), b.as_slice()) && c.get().same(d.get())
            }
            _ => false,
        }
    }
}

#[cycle(shape)]
fn same_shapes(a: &[Shape], b: &[Shape]) -> bool
    ensures { IsTrue result ↔ (a.now ≡ b.now) }
{
    if a.len() != b.len() {
        return false;
    }
    'shapes: for i in 0..a.len() {
        if !a[i].same(&b[i]) {
            return false;
        }
    }
    true
}

/// Whether the shape has as many arrays as that.
pub fn has_arrays(shape: &Shape, count: usize) -> bool
    ensures { result ≡ nat_eq count (arrays shape.now) }
{
    arrays(shape) == u128::from(count as u64)
}

/// The number of arrays, or the greatest number there is: a shape that shares its parts may have more.
#[cycle(arrays)]
#[tactic(auto, using(crate::proofs::ShapeLemmas::arrays_pointer, crate::proofs::ShapeLemmas::arrays_array, crate::proofs::ShapeLemmas::arrays_function))]
fn arrays(shape: &Shape) -> u128
    ensures { result ≡ min (arrays shape.now) (2 ^ 128 - 1) }
{
    match shape {
        Shape::Void => 0,
        Shape::Int(_) => 0,
        Shape::Struct(_) => 0,
        Shape::Pointer(target) => arrays(target.get()),
        Shape::Array(item) => arrays(item.get()).saturating_add(1),
        Shape::Function(parameters, result) => {
            arrays_of(parameters.as_slice()).saturating_add(arrays(result.get()))
        }
    }
}

#[cycle(arrays)]
fn arrays_of(shapes: &[Shape]) -> u128
    ensures { result ≡ min (arrays_of shapes.now) (2 ^ 128 - 1) }
{
    let mut all: u128 = 0;
    'shapes: for shape in shapes {
        all = all.saturating_add(arrays(shape));
    }
    all
}
