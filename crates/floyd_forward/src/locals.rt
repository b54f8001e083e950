ghost use Rattle.std.specs.Prelude.{◌≡◌, ◌<◌, IfOk, IfSome, length};
ghost use Rattle.floyd_forward.specs.Set.{local_place as local_place_lem, put_local as put_local_lem, with_temp as with_temp_lem};

use floyd_assert::{
    Assertion, Local, LocalList, share_binders, share_formulas, share_locals, share_parts,
};
use floyd_text::Name;
use floyd_tree::Term;
use std::alloc::{AllocError, Global};

/// The place of a temporary, from 0.
fn local_place(locals: &[Local], name: &Name) -> Option<usize>
    ensures value { result ≡ local_place_lem name.now locals.now }
    ensures within { IfSome result (λ i. i < length locals.now) }
{
    locals.iter().position(|local| name == &local.name)
}

/// The temporaries with another one in the place of one of them, or last.
fn put_local(
    alloc: Global,
    local: Local,
    place: Option<usize>,
    locals: &[Local],
) -> Result<LocalList, AllocError>
    requires { IfSome place (λ i. i < length locals.now) }
    ensures { IfOk result (λ all. all ≡ put_local_lem local place locals.now) }
{
    let mut all = share_locals(alloc, locals)?;
    match place {
        Some(i) => all.set(i, local),
        None => all.push(local)?,
    }
    Ok(all)
}

/// The assertion with a temporary set to a term. A temporary that was there keeps its place.
pub(crate) fn with_temp(
    alloc: Global,
    name: &Name,
    term: &Term,
    a: &Assertion,
) -> Result<Assertion, AllocError>
    ensures { IfOk result (λ b. b ≡ with_temp_lem name.now term.now a.now) }
{
    let local = Local {
        name: name.share()?,
        term: term.share()?,
    };
    let locals = a.locals.as_slice();
    let locals = put_local(alloc, local, local_place(locals, name), locals)?;
    let existentials = share_binders(alloc, a.existentials.as_slice())?;
    let props = share_formulas(alloc, a.props.as_slice())?;
    let parts = share_parts(alloc, a.parts.as_slice())?;
    Ok(Assertion {
        existentials,
        props,
        locals,
        parts,
    })
}
