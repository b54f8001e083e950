//! Modules before this one, and names that are taken.
ghost use Rattle.std.specs.Prelude.{◌≡◌, find, bytes_eq};
ghost use Rattle.std.specs.Option.{option_copied};
ghost use Rattle.floyd_specread_state.specs.States as specs;

use crate::state::State;
use floyd_specread_trees::ModuleDefs;
use floyd_text::Name;

/// The module of that name.
pub fn module_of<'m>(before: &'m [ModuleDefs], name: &Name) -> Option<&'m ModuleDefs>
    ensures { option_copied result ≡ specs.module_named name.now before.now }
{
    let mut rest = before;
    'modules: while let Some((other, more)) = rest.split_first() {
        if other.name == *name {
            return Some(other);
        }
        rest = more;
    }
    None
}

/// Whether an item that is visible in a module has the name.
fn module_has(other: &ModuleDefs, name: &Name) -> bool
    ensures { result ≡ specs.module_has other.now name.now }
{
    let defs = other.defs.get();
    let function = defs.funs.get(name).is_some() || defs.preds.get(name).is_some();
    let other = defs.lemmas.get(name).is_some() || other.specs.get().get(name).is_some();
    function || other
}

fn modules_have(before: &[ModuleDefs], name: &Name) -> bool
    ensures { result ≡ specs.modules_have name.now before.now }
{
    before.iter().any(|other| module_has(other, name))
}

/// Whether an item that is visible has the name.
fn state_has(state: &State, name: &Name) -> bool
    ensures { result ≡ specs.state_has state.now name.now }
{
    let function = state.funs.get(name).is_some() || state.preds.get(name).is_some();
    let other = state.lemmas.get(name).is_some() || state.specs.get(name).is_some();
    function || other
}

/// Whether an item of the project has the name, in this module or in one before it.
pub fn is_taken(before: &[ModuleDefs], state: &State, name: &Name) -> bool
    ensures { result ≡ specs.is_taken before.now state.now name.now }
{
    state_has(state, name) || modules_have(before, name)
}
