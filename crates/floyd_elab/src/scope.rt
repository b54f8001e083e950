//! The scope of a file.
ghost use Rattle.std.specs.Prelude.{◌≡◌, ◌++◌, ◌∷◌, [], IfOk, OnOk, bytes_eq};
ghost use Rattle.std.specs.Option.{option_copied};
ghost use Rattle.std.specs.Map.{lookup};
ghost use Rattle.floyd_elab.specs.TableClauses.{innermost};

use floyd_elab_names::{Meaning, Names};
use floyd_text::Name;
use std::alloc::{AllocError, Global};
use std::marker::Model;

/// The one scope at the top of a file. Contracts see its names, and what each stands for.
pub(crate) struct FileScope {
    names: Names,
}

impl Drop for FileScope {
    fn drop(self) {
        let FileScope { names } = self;
        drop(names);
    }
}

impl Model for FileScope {
    ghost use Rattle.std.specs.Prelude.{◌≡◌, ◌∷◌, []};
    ghost use Rattle.std.specs.Coded.{codes};
    ghost use Rattle.floyd_elab_names.specs.contracts.meaning.Meaning as meaning;
    ghost use Rattle.floyd_elab_names.specs.Scopes.{Scope};

    ghost Value = { Scope };

    ghost coded = { Prim.hlevel (codes, meaning.the_row.coded) };

    ghost use Rattle.floyd_elab.specs.TableClauses.{innermost};

    ghost view = { λ s. innermost s.names };

    ghost invariant = { λ s. s.names ≡ innermost s.names ∷ [] };
}

impl FileScope {
    /// The scope without names.
    pub(crate) fn new(alloc: Global) -> Result<FileScope, AllocError>
        ensures { IfOk result (λ s. s ≡ []) }
    {
        let mut names = Names::new(alloc);
        names.enter()?;
        Ok(FileScope { names })
    }

    /// The one scope that was entered.
    pub(crate) fn of(names: Names) -> FileScope
        requires { names ≡ innermost names ∷ [] }
        ensures { result ≡ innermost names }
    {
        FileScope { names }
    }

    pub(crate) fn names(&self) -> &Names
        ensures { result.now ≡ self.now ∷ [] }
    {
        &self.names
    }

    pub(crate) fn into_names(self) -> Names
        ensures { result ≡ self ∷ [] }
    {
        let FileScope { names } = self;
        names
    }

    /// What the name stands for.
    pub(crate) fn meaning_of(&self, name: &Name) -> Option<&Meaning>
        ensures { option_copied result ≡ lookup (bytes_eq name.now) self.now }
    {
        self.names.meaning_of(name)
    }

    pub(crate) fn declare(
        &mut self,
        alloc: Global,
        name: &Name,
        meaning: Meaning,
    ) -> Result<(), AllocError>
        ensures { OnOk result (self.new ≡ self.old ++ (name.now, meaning) ∷ []) }
    {
        self.names.declare(alloc, name, meaning)?;
        Ok(())
    }
}
