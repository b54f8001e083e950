//! Parts of sources and of specifications, whose terms, names and statements are shared and not copied.
ghost use Rattle.std.specs.Prelude.{◌≡◌, IfOk};

use floyd_assert_trees::{
    NameList, Postcondition, Precondition, share_binders, share_formulas, share_parts, share_terms,
};
use floyd_clight::{Initial, InitialList};
use floyd_text::Name;
use floyd_tree::Term;
use sqlite_items::Items;
use std::alloc::{AllocError, Global};

/// The same contents of a variable.
#[cycle(share)]
pub fn share_initial(alloc: Global, contents: &Initial) -> Result<Initial, AllocError>
    ensures { IfOk result (λ c. c ≡ contents.now) }
{
    match contents {
        Initial::Absent => Ok(Initial::Absent),
        Initial::Int(kind, bits) => Ok(Initial::Int(*kind, *bits)),
        Initial::Null => Ok(Initial::Null),
        Initial::Address(name) => Ok(Initial::Address(name.share()?)),
        Initial::Element(name, offset) => Ok(Initial::Element(name.share()?, *offset)),
        Initial::Parts(parts) => Ok(Initial::Parts(share_initials(alloc, parts.as_slice())?)),
    }
}

#[cycle(share)]
fn share_initials(alloc: Global, parts: &[Initial]) -> Result<InitialList, AllocError>
    ensures { IfOk result (λ all. all ≡ parts.now) }
{
    let mut all = Items::new(alloc);
    'parts: for part in parts {
        all.push(share_initial(alloc, part)?)?;
    }
    Ok(all)
}

fn share_names(alloc: Global, names: &[Name]) -> Result<NameList, AllocError>
    ensures { IfOk result (λ all. all ≡ names.now) }
{
    let mut all = Items::new(alloc);
    'names: for name in names {
        all.push(name.share()?)?;
    }
    Ok(all)
}

/// The same precondition.
pub fn share_pre(alloc: Global, pre: &Precondition) -> Result<Precondition, AllocError>
    ensures { IfOk result (λ p. p ≡ pre.now) }
{
    let props = share_formulas(alloc, pre.props.as_slice())?;
    let params = share_terms(alloc, pre.params.as_slice())?;
    let globals = share_names(alloc, pre.globals.as_slice())?;
    let parts = share_parts(alloc, pre.parts.as_slice())?;
    Ok(Precondition {
        props,
        params,
        globals,
        parts,
    })
}

fn share_value(value: &Option<Term>) -> Result<Option<Term>, AllocError>
    ensures { IfOk result (λ t. t ≡ value.now) }
{
    match value {
        None => Ok(None),
        Some(t) => Ok(Some(t.share()?)),
    }
}

/// The same postcondition.
pub fn share_post(alloc: Global, post: &Postcondition) -> Result<Postcondition, AllocError>
    ensures { IfOk result (λ p. p ≡ post.now) }
{
    let existentials = share_binders(alloc, post.existentials.as_slice())?;
    let props = share_formulas(alloc, post.props.as_slice())?;
    let value = share_value(&post.value)?;
    let parts = share_parts(alloc, post.parts.as_slice())?;
    Ok(Postcondition {
        existentials,
        props,
        value,
        parts,
    })
}
