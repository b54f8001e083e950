use crate::places::{Places, all_import_places, function_places};
pub use floyd_goal_meaning::Linked as LinkedParts;
use floyd_goal_meaning::{ImportBy, LinkedFunction};
use floyd_text::Name;
use sqlite_items::Items;
use std::alloc::{AllocError, Global};
use std::marker::Model;

/// A linked program, with the places of its functions and of the imports of its modules by name. Contracts see the program.
pub struct Linked {
    parts: LinkedParts,
    functions: Places,
    imports: Items<Places>,
}

impl Model for Linked {
    ghost use Rattle.std.specs.Prelude.{◌≡◌, map};
    ghost use Rattle.floyd_goal_meaning.specs.declared.linked.Linked as p;
    ghost use Rattle.floyd_goal_meaning.specs.contracts.linked.Linked as c;
    ghost use Rattle.floyd_linked.specs.PlaceClauses.{function_places, import_places};

    ghost Value = { p.Linked };

    ghost coded = { c.the_row.coded };

    ghost view = { λ l. l.parts };

    ghost invariant = { λ l. (l.functions ≡ function_places l.parts.functions) × (l.imports ≡ map import_places l.parts.modules) };
}

impl Drop for Linked {
    fn drop(self) {
        let Linked {
            parts,
            functions,
            imports,
        } = self;
        drop(parts);
        drop(functions);
        drop(imports);
    }
}

impl Linked {
    ghost use Rattle.std.specs.Prelude.{◌≡◌, IfOk};
    ghost use Rattle.std.specs.Option.{option_copied};
    ghost use Rattle.floyd_goal_meaning.specs.Programs.{linked_function};
    ghost use Rattle.floyd_linked.specs.Found.{import_in};

    /// The program of these parts. Of two functions of one name the first is found.
    pub fn new(alloc: Global, parts: LinkedParts) -> Result<Linked, AllocError>
        ensures { IfOk result (λ l. l ≡ parts) }
    {
        let functions = function_places(alloc, parts.functions.as_slice())?;
        let imports = all_import_places(alloc, parts.modules.as_slice())?;
        Ok(Linked {
            parts,
            functions,
            imports,
        })
    }

    pub fn parts(&self) -> &LinkedParts
        ensures { result.now ≡ self.now }
    {
        &self.parts
    }

    /// The function of that name.
    #[tactic(auto, using(crate::proofs::PlaceLemmas::function_found, crate::proofs::PlaceLemmas::no_function))]
    pub fn function(&self, name: &Name) -> Option<&LinkedFunction>
        ensures { option_copied result ≡ linked_function self.now name.now }
    {
        match self.functions.get(name) {
            None => None,
            Some(place) => self.parts.functions.get(*place),
        }
    }

    /// The import of that name, with a specification of its own, in the module of that number.
    #[tactic(auto, using(crate::proofs::PlaceLemmas::import_found, crate::proofs::PlaceLemmas::no_import, crate::proofs::PlaceLemmas::no_module))]
    pub fn import(&self, number: usize, name: &Name) -> Option<&ImportBy>
        ensures { option_copied result ≡ import_in self.now number name.now }
    {
        let Some(places) = self.imports.get(number) else {
            return None;
        };
        let Some(module) = self.parts.modules.get(number) else {
            return None;
        };
        match places.get(name) {
            None => None,
            Some(place) => module.imports.get(*place),
        }
    }
}
