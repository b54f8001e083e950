//! What the text of a specification says.
ghost use Rattle.std.specs.Prelude.{◌≡◌};

use floyd_assert_trees::{BinderList, Funspec, Postcondition, Precondition, TypeList};
use floyd_text::Name;
use floyd_tree::AType;
use sqlite_items::Items;
use std::alloc::Global;

/// What is asked of a caller: that of `main` at the start of the program, which is written out when the program is linked,
/// or what is written.
pub enum PreText {
    /// `MAIN_PRE`
    Main,
    Written(Precondition),
}

impl Drop for PreText {
    fn drop(self) {
        match self {
            PreText::Main => {}
            PreText::Written(pre) => drop(pre),
        }
    }
}

impl PreText {
    ghost use Rattle.floyd_specread_specs.specs.Texts.{precondition_of};

    /// The precondition, and whether MAIN_PRE stands for it, which is empty then.
    fn precondition(self, alloc: Global) -> (Precondition, bool)
        ensures { result ≡ precondition_of self }
    {
        match self {
            PreText::Main => {
                let empty = Precondition {
                    props: Items::new(alloc),
                    params: Items::new(alloc),
                    globals: Items::new(alloc),
                    parts: Items::new(alloc),
                };
                (empty, true)
            }
            PreText::Written(pre) => (pre, false),
        }
    }
}

/// The text of a specification: the variables of WITH, the types and conditions of PRE and those of POST.
pub struct SpecText {
    pub with: BinderList,
    pub params: TypeList,
    pub pre: PreText,
    pub result: AType,
    pub post: Postcondition,
}

impl Drop for SpecText {
    fn drop(self) {
        let SpecText {
            with,
            params,
            pre,
            result,
            post,
        } = self;
        drop(with);
        drop(params);
        drop(pre);
        drop(result);
        drop(post);
    }
}

impl SpecText {
    ghost use Rattle.floyd_specread_specs.specs.Texts.{funspec_of};

    /// The specification, with the name of a SPEC, if it has one; and whether MAIN_PRE stands for its precondition, which is
    /// empty then.
    pub fn funspec(self, alloc: Global, name: Option<Name>) -> (Funspec, bool)
        ensures { result ≡ funspec_of name self }
    {
        let SpecText {
            with,
            params,
            pre,
            result: ty,
            post,
        } = self;
        let (pre, is_main) = pre.precondition(alloc);
        let spec = Funspec {
            name,
            with,
            params,
            result: ty,
            pre,
            post,
        };
        (spec, is_main)
    }
}
