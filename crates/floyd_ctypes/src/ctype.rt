ghost use Rattle.std.specs.Prelude.{◌≡◌, IfOk, IsTrue, ◌↔◌};

use floyd_int::IntKind;
use floyd_text::{Name, Shared};
use sqlite_items::Items;
use std::alloc::{AllocError, Global};

/// Types in order, as those of a function's parameters.
pub type TypeList = Items<CType>;

/// A type of C. A struct is named by its tag, so that the types of two modules can be compared.
pub enum CType {
    Void,
    Int(IntKind),
    Pointer(Shared<CType>),
    /// The type of the elements, and their number.
    Array(Shared<CType>, u64),
    Struct(Name),
    /// The types of the parameters, and of the result.
    Function(TypeList, Shared<CType>),
}

impl Drop for CType {
    fn drop(self) {
        match self {
            CType::Void => {}
            CType::Int(_) => {}
            CType::Pointer(ctype) => drop(ctype),
            CType::Array(ctype, _) => drop(ctype),
            CType::Struct(name) => drop(name),
            CType::Function(types, ctype) => {
                drop(types);
                drop(ctype);
            }
        }
    }
}

impl CType {
    /// The same type. What it points to or is made of is shared and not copied.
    #[cycle(share)]
    pub fn share(&self, alloc: Global) -> Result<CType, AllocError>
        ensures { IfOk result (λ t. t ≡ self.now) }
    {
        Ok(match self {
            CType::Void => CType::Void,
            CType::Int(kind) => CType::Int(*kind),
            CType::Pointer(to) => CType::Pointer(to.share()?),
            CType::Array(element, number) => CType::Array(element.share()?, *number),
            CType::Struct(tag) => CType::Struct(tag.share()?),
            CType::Function(parameters, result) => {
                CType::Function(share_all(alloc, parameters.as_slice())?, result.share()?)
            }
        })
    }

    /// Whether both are the same type, written out.
    #[cycle(same)]
    pub fn same(&self, other: &CType) -> bool
        ensures { IsTrue result ↔ (self.now ≡ other.now) }
    {
        match (self, other) {
            (CType::Void, CType::Void) => true,
            (CType::Int(a), CType::Int(b)) => a == b,
            (CType::Pointer(a), CType::Pointer(b)) => a.get().same(b.get()),
            (CType::Array(a, m), CType::Array(b, n)) => m == n && a.get().same(b.get()),
            (CType::Struct(a), CType::Struct(b)) => a.same(b),
            (CType::Function(ps, a), CType::Function(qs, b)) => {
                a.get().same(b.get()) && all_same(ps.as_slice(), qs.as_slice())
            }
            _ => false,
        }
    }
}

/// The same types.
#[cycle(share)]
fn share_all(alloc: Global, types: &[CType]) -> Result<TypeList, AllocError>
    ensures { IfOk result (λ all. all ≡ types.now) }
{
    let mut all = Items::new(alloc);
    'types: for t in types {
        all.push(t.share(alloc)?)?;
    }
    Ok(all)
}

/// Whether both lists have the same types.
#[cycle(same)]
fn all_same(types: &[CType], others: &[CType]) -> bool
    ensures { IsTrue result ↔ (types.now ≡ others.now) }
{
    if types.len() != others.len() {
        return false;
    }
    'types: for i in 0..types.len() {
        if !types[i].same(&others[i]) {
            return false;
        }
    }
    true
}
