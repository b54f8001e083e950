ghost use Rattle.std.specs.Prelude.{◌≡◌, IfOk};
ghost use Rattle.floyd_ctyping.specs.Operators.{value_of_type, object_of_type, is_zero as is_zero_lem, is_object as is_object_lem, is_parameter as is_parameter_lem, value_type as value_type_lem};

use floyd_ctypes::CType;
use floyd_elab_names::decay;
use std::alloc::{AllocError, Global};

/// What an expression may be used for besides its value.
#[derive(Clone, Copy, PartialEq, Eq, Debug)]
pub enum Standing {
    /// Its value alone.
    Value,
    /// It is the constant 0, which is a pointer where one is wanted.
    Zero,
    /// It stands for an object: C's lvalue.
    Object,
    /// It stands for a parameter, whose address is not taken.
    Parameter,
}

/// An expression as its operator sees it.
pub struct Operand {
    /// Its type before arrays and functions become pointers.
    pub ctype: CType,
    pub standing: Standing,
}

impl Drop for Operand {
    fn drop(self) {
        let Operand { ctype, standing } = self;
        drop(ctype);
        drop(standing);
    }
}

impl Operand {
    /// A value of that type.
    pub fn value(ctype: CType) -> Operand
        ensures { result ≡ value_of_type ctype }
    {
        Operand {
            ctype,
            standing: Standing::Value,
        }
    }

    /// An object of that type.
    pub fn object(ctype: CType) -> Operand
        ensures { result ≡ object_of_type ctype }
    {
        Operand {
            ctype,
            standing: Standing::Object,
        }
    }

    /// Its type before arrays and functions become pointers.
    pub fn into_type(self) -> CType
        ensures { result ≡ self.ctype }
    {
        let Operand { ctype, standing: _ } = self;
        ctype
    }

    /// Whether it is the constant 0.
    pub fn is_zero(&self) -> bool
        ensures { result ≡ is_zero_lem self.now.standing }
    {
        match self.standing {
            Standing::Zero => true,
            Standing::Value | Standing::Object | Standing::Parameter => false,
        }
    }

    /// Whether it stands for an object.
    pub fn is_object(&self) -> bool
        ensures { result ≡ is_object_lem self.now.standing }
    {
        match self.standing {
            Standing::Object | Standing::Parameter => true,
            Standing::Value | Standing::Zero => false,
        }
    }

    /// Whether it stands for a parameter.
    pub fn is_parameter(&self) -> bool
        ensures { result ≡ is_parameter_lem self.now.standing }
    {
        match self.standing {
            Standing::Parameter => true,
            Standing::Value | Standing::Zero | Standing::Object => false,
        }
    }

    /// The type of its value.
    pub fn value_type(&self, alloc: Global) -> Result<CType, AllocError>
        ensures { IfOk result (λ t. t ≡ value_type_lem self.now) }
    {
        decay(alloc, &self.ctype)
    }
}
