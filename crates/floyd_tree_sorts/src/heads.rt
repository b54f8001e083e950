ghost use Rattle.std.specs.Prelude.{◌≡◌, IfOk, IsTrue, ◌↔◌};
ghost use Rattle.floyd_tree_sorts.specs.Heads.{is_variable};
ghost use Rattle.floyd_tree_sorts.specs.Prints.{width_number, kind_number, payload_print, head_print, head_summary};

use crate::operators::Operator;
use crate::prints::{blend, name_print, slot};
use crate::shape::Shape;
use crate::sorts::{Sort, SortList, same_sorts};
use floyd_text::{Name, Shared};
use std::alloc::AllocError;

/// A width of integers in bits.
#[derive(Clone, Copy, PartialEq, Eq, Debug)]
pub enum Width {
    Bits8,
    Bits16,
    Bits32,
    Bits64,
}

/// What stands at a node of a term.
pub enum Head {
    /// A whole number, which is below 2^126 in absolute value wherever it is read or folded.
    Literal(i128),
    Variable(Name, Sort),
    /// The address of a global variable or function of this name.
    Gv(Name),
    /// The address of a local variable of this name.
    Lv(Name),
    /// The empty list of items of this sort.
    Nil(Sort),
    /// The empty tree of items of this sort.
    Leaf(Sort),
    Signed(Width),
    Unsigned(Width),
    /// The default value of a type of this shape and of this value sort. Its kids are the sizes of the arrays.
    Default(Shared<Shape>, Sort),
    /// A call of a function of this name, with the sorts of its arguments and of its result.
    Fun(Name, Shared<SortList>, Sort),
    Operator(Operator),
}

impl Drop for Head {
    fn drop(self) {
        match self {
            Head::Literal(_) => {}
            Head::Variable(name, sort) => {
                drop(name);
                drop(sort);
            }
            Head::Gv(name) => drop(name),
            Head::Lv(name) => drop(name),
            Head::Nil(sort) => drop(sort),
            Head::Leaf(sort) => drop(sort),
            Head::Signed(_) => {}
            Head::Unsigned(_) => {}
            Head::Default(shape, sort) => {
                drop(shape);
                drop(sort);
            }
            Head::Fun(name, sorts, sort) => {
                drop(name);
                drop(sorts);
                drop(sort);
            }
            Head::Operator(_) => {}
        }
    }
}

impl Width {
    /// The number of bits.
    pub fn number(self) -> u32
        ensures { result ≡ width_number self }
    {
        match self {
            Width::Bits8 => 8,
            Width::Bits16 => 16,
            Width::Bits32 => 32,
            Width::Bits64 => 64,
        }
    }
}

impl Head {
    /// Another owner of the same head, whose parts are not copied.
    pub fn share(&self) -> Result<Head, AllocError>
        ensures { IfOk result (λ h. h ≡ self.now) }
    {
        match self {
            Head::Literal(n) => Ok(Head::Literal(*n)),
            Head::Variable(name, sort) => Ok(Head::Variable(name.share()?, sort.share()?)),
            Head::Gv(name) => Ok(Head::Gv(name.share()?)),
            Head::Lv(name) => Ok(Head::Lv(name.share()?)),
            Head::Nil(item) => Ok(Head::Nil(item.share()?)),
            Head::Leaf(item) => Ok(Head::Leaf(item.share()?)),
            Head::Signed(width) => Ok(Head::Signed(*width)),
            Head::Unsigned(width) => Ok(Head::Unsigned(*width)),
            Head::Default(shape, sort) => Ok(Head::Default(shape.share()?, sort.share()?)),
            Head::Fun(name, arguments, sort) => {
                Ok(Head::Fun(name.share()?, arguments.share()?, sort.share()?))
            }
            Head::Operator(operator) => Ok(Head::Operator(*operator)),
        }
    }

    pub fn same(&self, other: &Head) -> bool
        ensures { IsTrue result ↔ (self.now ≡ other.now) }
    {
        match (self, other) {
            (Head::Literal(a), Head::Literal(b)) => a == b,
            (Head::Variable(a, s), Head::Variable(b, t)) => a == b && s.same(t),
            (Head::Gv(a), Head::Gv(b)) => a == b,
            (Head::Lv(a), Head::Lv(b)) => a == b,
            (Head::Nil(s), Head::Nil(t)) => s.same(t),
            (Head::Leaf(s), Head::Leaf(t)) => s.same(t),
            (Head::Signed(v), Head::Signed(w)) => v == w,
            (Head::Unsigned(v), Head::Unsigned(w)) => v == w,
            (Head::Default(a, s), Head::Default(b, t)) => a.get().same(b.get()) && s.same(t),
            (Head::Fun(a, v, s), Head::Fun(b, w, t)) => {
                a == b && same_sorts(v.get().as_slice(), w.get().as_slice()) && s.same(t)
            }
            (Head::Operator(a), Head::Operator(b)) => a == b,
            _ => false,
        }
    }

    pub fn is_variable(&self, name: &Name) -> bool
        ensures { result ≡ is_variable name.now self.now }
    {
        match self {
            Head::Variable(own, _) => name == own,
            _ => false,
        }
    }

    /// A number for each kind of head.
    pub fn kind_number(&self) -> u64
        ensures { result ≡ kind_number self.now }
    {
        match self {
            Head::Literal(_) => 35,
            Head::Variable(_, _) => 36,
            Head::Gv(_) => 37,
            Head::Lv(_) => 38,
            Head::Nil(_) => 39,
            Head::Leaf(_) => 40,
            Head::Signed(_) => 41,
            Head::Unsigned(_) => 42,
            Head::Default(_, _) => 43,
            Head::Fun(_, _, _) => 44,
            Head::Operator(operator) => operator.row().number,
        }
    }

    /// The fingerprint of what the head holds besides its kind.
    pub fn payload_print(&self) -> u64
        ensures { result ≡ payload_print self.now }
    {
        match self {
            Head::Literal(n) => (n.unsigned_abs() & 0xffff_ffff_ffff_ffff) as u64,
            Head::Variable(name, _) => name_print(name),
            Head::Gv(name) => name_print(name),
            Head::Lv(name) => name_print(name),
            Head::Signed(width) => u64::from(width.number()),
            Head::Unsigned(width) => u64::from(width.number()),
            Head::Fun(name, _, _) => name_print(name),
            _ => 0,
        }
    }

    pub fn print(&self) -> u64
        ensures { result ≡ head_print self.now }
    {
        blend(
            blend(2_166_136_261, self.kind_number()),
            self.payload_print(),
        )
    }

    /// The bit of the variable that the head is, or none.
    pub fn summary(&self) -> u64
        ensures { result ≡ head_summary self.now }
    {
        match self {
            Head::Variable(name, _) => 1 << slot(name),
            _ => 0,
        }
    }
}
