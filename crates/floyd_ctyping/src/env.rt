//! The names and structs that an expression is typed among.
ghost use Rattle.std.specs.Prelude.{◌≡◌, ◌<◌, ◌^◌, [], ◌∷◌, All, IsTrue, IfOk, OnOk, OnErr, length};
ghost use Rattle.floyd_text.specs.Gives.{Gives};
ghost use Rattle.floyd_ctypes.specs.Define.{declared, completed, refusal, Answers};
ghost use Rattle.floyd_ctypes.specs.Layout.{type_fits};
ghost use Rattle.floyd_ctypes.specs.Structs.{has_tag};
ghost use Rattle.floyd_elab_names.specs.Scopes.{enter, leave, with_meaning};
ghost use Rattle.floyd_ctyping.specs.Expressions.{type_among};

use crate::walk::operand_of;
use floyd_cparse_trees::CExpr;
use floyd_ctypes::{CType, DefineStop, FieldList, StructTable};
use floyd_elab_names::{Meaning, Names, Tags};
use floyd_text::{Halt, Name};
use sqlite_items::Items;
use std::alloc::{AllocError, Global};

/// The names that are in scope, and the structs that were declared.
pub struct Env {
    names: Names,
    structs: StructTable,
}

impl Drop for Env {
    fn drop(self) {
        let Env { names, structs } = self;
        drop(names);
        drop(structs);
    }
}

impl Env {
    /// The scope of a file, without a name and without a struct.
    pub fn new(alloc: Global) -> Result<Env, AllocError>
        ensures names { IfOk result (λ env. env.names ≡ [] ∷ []) }
        ensures structs { IfOk result (λ env. env.structs ≡ []) }
    {
        let mut names = Names::new(alloc);
        names.enter()?;
        Ok(Env {
            names,
            structs: StructTable::new(alloc),
        })
    }

    /// Declares the name in the innermost scope. What it stands for there already, it goes on to stand for.
    pub fn declare(
        &mut self,
        alloc: Global,
        name: &Name,
        meaning: Meaning,
    ) -> Result<(), AllocError>
        ensures ok { OnOk result (self.new.names ≡ with_meaning name.now meaning self.old.names) }
        ensures err { OnErr result (self.new.names ≡ self.old.names) }
        ensures structs { self.new.structs ≡ self.old.structs }
    {
        self.names.declare(alloc, name, meaning)
    }

    /// Goes into a scope, which has no names yet.
    pub fn enter(&mut self) -> Result<(), AllocError>
        ensures ok { OnOk result (self.new.names ≡ enter self.old.names) }
        ensures err { OnErr result (self.new.names ≡ self.old.names) }
        ensures structs { self.new.structs ≡ self.old.structs }
    {
        self.names.enter()
    }

    /// Leaves the innermost scope. Its names stand for what they stood for before.
    pub fn leave(&mut self)
        ensures names { self.new.names ≡ leave self.old.names }
        ensures structs { self.new.structs ≡ self.old.structs }
    {
        self.names.leave();
    }

    /// Adds the tag as that of an incomplete struct, or changes nothing where it is there.
    pub fn declare_struct(&mut self, tag: &Name) -> Result<(), AllocError>
        ensures ok { OnOk result (self.new.structs ≡ declared self.old.structs tag.now) }
        ensures err { OnErr result (self.new.structs ≡ self.old.structs) }
        ensures names { self.new.names ≡ self.old.names }
    {
        self.structs.declare(tag)
    }

    /// Gives the struct its fields. After a refusal the structs are as before.
    pub fn complete_struct(&mut self, tag: &Name, fields: FieldList) -> Result<(), DefineStop>
        requires there { IsTrue (has_tag self.old.structs tag.now) }
        requires some { 0 < length fields }
        requires few { length fields < 2 ^ 31 }
        requires fits { All (λ f. IsTrue (type_fits self.old.structs f.ty)) fields }
        ensures ok { OnOk result (self.new.structs ≡ completed self.old.structs tag.now fields) }
        ensures err { OnErr result (self.new.structs ≡ self.old.structs) }
        ensures answer { Answers result (refusal self.old.structs tag.now fields) }
        ensures names { self.new.names ≡ self.old.names }
    {
        self.structs.complete(tag, fields)
    }
}

/// The type of an expression, before arrays and functions become pointers. It is an expression of a unit that
/// `floyd_cparse::parse` gives, so that its nesting bounds the depth of the calls; `file` is the number of the file that
/// the unit was read from. Refused are operands that do not fit (401), names that are not declared and fields that a
/// struct has not (402), a struct that a type name completes again or a field's name that it has twice (403), an
/// assignment, a step or a call inside the expression (404), casts that are left out (405), and types that are too large
/// or too deep and the address of a parameter (303).
pub fn type_of(alloc: Global, env: &Env, _file: u32, e: &CExpr) -> Result<CType, Halt>
    ensures exact { Gives (λ t. t) result (type_among env.now.names env.now.structs e.now) }
{
    let mut tags = Tags {
        structs: env.structs.share()?,
        completed: Items::new(alloc),
    };
    let a = operand_of(alloc, &env.names, &mut tags, e)?;
    Ok(a.into_type())
}
