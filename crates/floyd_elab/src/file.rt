//! What elaboration keeps while it goes through the declarations of a file.
ghost use Rattle.std.specs.Prelude.{◌≡◌, [], Some, IfOk, OnOk};
ghost use Rattle.floyd_elab_names.specs.declared.meaning.Meaning.TheVariants as m;
ghost use Rattle.floyd_elab_names.specs.declared.meaning.Storage.TheVariants as kept;
ghost use Rattle.floyd_elab.specs.Files.{top, is_again, may_declare, is_new as is_new_lem, add_meaning as add_meaning_lem};
ghost use Rattle.floyd_elab.specs.Units.{empty_file};
ghost use Rattle.floyd_elab.specs.UnitClauses.{no_tags as no_tags_lem, without_names, without_tags};

use crate::scope::FileScope;
use crate::tables::Definitions;
use floyd_clight::{DeclaredList, Defined, Variable, VariableList};
use floyd_ctypes::{CType, StructTable};
use floyd_elab_names::{Meaning, Names, Tags, same_type};
use floyd_text::Name;
use sqlite_items::Items;
use std::alloc::{AllocError, Global};
use std::mem;

/// What is known of a file so far.
pub(crate) struct File {
    pub tags: Tags,
    /// The names of the file, and what each stands for.
    pub scope: FileScope,
    /// The variables that are defined.
    pub defined: Definitions<Variable>,
    /// Each variable where it was first declared.
    pub mentioned: VariableList,
    /// The functions that are declared, in the order of their first declarations.
    pub functions: DeclaredList,
    /// Those with a body.
    pub bodies: Definitions<Defined>,
}

impl Drop for File {
    fn drop(self) {
        let File {
            tags,
            scope,
            defined,
            mentioned,
            functions,
            bodies,
        } = self;
        drop(tags);
        drop(scope);
        drop(defined);
        drop(mentioned);
        drop(functions);
        drop(bodies);
    }
}

impl File {
    /// Nothing is declared yet.
    pub(crate) fn new(alloc: Global) -> Result<File, AllocError>
        ensures { IfOk result (λ file. file ≡ empty_file) }
    {
        let scope = FileScope::new(alloc)?;
        Ok(File {
            tags: no_tags(alloc),
            scope,
            defined: Definitions::new(alloc),
            mentioned: Items::new(alloc),
            functions: Items::new(alloc),
            bodies: Definitions::new(alloc),
        })
    }

    /// Its variables that are defined, those that are declared, its functions that are declared, and those with a body.
    pub(crate) fn into_parts(
        self,
    ) -> (
        Definitions<Variable>,
        VariableList,
        DeclaredList,
        Definitions<Defined>,
    )
        ensures { result ≡ (self.defined, self.mentioned, self.functions, self.bodies) }
    {
        let File {
            tags,
            scope,
            defined,
            mentioned,
            functions,
            bodies,
        } = self;
        drop(tags);
        drop(scope);
        (defined, mentioned, functions, bodies)
    }

    /// Whether the name was not declared before.
    pub(crate) fn is_new(&self, x: &Name) -> bool
        ensures { result ≡ is_new_lem self.now x.now }
    {
        self.scope.meaning_of(x).is_none()
    }

    /// Whether a variable of that name and type may be declared here.
    #[tactic(auto, using(crate::proofs::ScopeLemmas::same_variable))]
    pub(crate) fn may_declare_variable(&self, x: &Name, t: &CType) -> bool
        ensures { result ≡ may_declare self.now x.now (m.Variable x.now t.now kept.Global) }
    {
        match self.scope.meaning_of(x) {
            None => true,
            Some(before) => is_same_variable(t, before),
        }
    }

    /// Whether a function of that name and type may be declared here.
    pub(crate) fn may_declare_function(&self, x: &Name, t: &CType) -> bool
        ensures { result ≡ may_declare self.now x.now (m.Function t.now) }
    {
        match self.scope.meaning_of(x) {
            None => true,
            Some(before) => is_same_function(t, before),
        }
    }

    /// Declares a name of the file.
    pub(crate) fn add_meaning(
        &mut self,
        alloc: Global,
        x: &Name,
        meaning: Meaning,
    ) -> Result<(), AllocError>
        ensures { OnOk result (self.new ≡ add_meaning_lem x.now meaning self.old) }
    {
        self.scope.declare(alloc, x, meaning)?;
        Ok(())
    }

    /// Takes the names out. The file has none until they are put back.
    pub(crate) fn take_names(&mut self, alloc: Global) -> Result<Names, AllocError>
        ensures names { IfOk result (λ names. names ≡ top self.old) }
        ensures file { OnOk result (self.new ≡ without_names self.old) }
    {
        let empty = FileScope::new(alloc)?;
        let scope = mem::replace(&mut self.scope, empty);
        Ok(scope.into_names())
    }

    /// Takes the structs out. The file has none until they are put back.
    pub(crate) fn take_tags(&mut self, alloc: Global) -> Tags
        ensures tags { result ≡ self.old.tags }
        ensures file { self.new ≡ without_tags self.old }
    {
        mem::replace(&mut self.tags, no_tags(alloc))
    }
}

/// No structs.
fn no_tags(alloc: Global) -> Tags
    ensures { result ≡ no_tags_lem }
{
    Tags {
        structs: StructTable::new(alloc),
        completed: Items::new(alloc),
    }
}

/// Whether a variable of that type was declared before.
fn is_same_variable(t: &CType, before: &Meaning) -> bool
    ensures { result ≡ is_again (m.Variable [] t.now kept.Global) (Some before.now) }
{
    match before {
        Meaning::Variable { ctype, .. } => same_type(t, ctype),
        _ => false,
    }
}

/// Whether a function of that type was declared before.
fn is_same_function(t: &CType, before: &Meaning) -> bool
    ensures { result ≡ is_again (m.Function t.now) (Some before.now) }
{
    match before {
        Meaning::Function(u) => same_type(t, u),
        _ => false,
    }
}
