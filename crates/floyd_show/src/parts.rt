ghost use Rattle.std.specs.Prelude.{◌≡◌, ◌++◌, OnOk};
ghost use Rattle.floyd_assert_trees.specs.Sizes.{is_sixteen as is_sixteen_lem};
ghost use Rattle.floyd_show.specs.Parts.{field_text, padding_text, part_text, place_text, root_text, share_text, typed_text};

use floyd_assert_trees::{Region, Sep};
use floyd_show_terms::{put_kids, put_path, put_sized, put_term};
use floyd_text::Bytes;
use floyd_tree::{Head, Term, head};
use std::alloc::{AllocError, Global};

fn is_sixteen(head: &Head) -> bool
    ensures { result ≡ is_sixteen_lem head.now }
{
    match head {
        Head::Literal(n) => *n == 16,
        _ => false,
    }
}

/// Puts the share and a comma at the end, unless it is the whole one.
fn put_share(alloc: Global, out: &mut Bytes, share: &Term) -> Result<(), AllocError>
    ensures { OnOk result (out.new ≡ out.old ++ share_text share.now) }
{
    if is_sixteen(head(share)) {
        Ok(())
    } else {
        put_term(alloc, out, share)?;
        out.extend(", ".as_bytes())
    }
}

/// Puts the share and the type at the end.
fn put_typed(alloc: Global, out: &mut Bytes, region: &Region) -> Result<(), AllocError>
    ensures { OnOk result (out.new ≡ out.old ++ typed_text region.now) }
{
    put_share(alloc, out, &region.share)?;
    put_sized(alloc, out, &region.ty)
}

/// Puts the root at the end.
fn put_root(alloc: Global, out: &mut Bytes, region: &Region) -> Result<(), AllocError>
    ensures { OnOk result (out.new ≡ out.old ++ root_text region.now) }
{
    out.extend(", ".as_bytes())?;
    put_term(alloc, out, &region.root)?;
    out.extend(")".as_bytes())
}

/// Puts the word, the share and the type of the region, and its path if it is not empty, at the end.
fn put_place(alloc: Global, out: &mut Bytes, region: &Region) -> Result<(), AllocError>
    ensures { OnOk result (out.new ≡ out.old ++ place_text region.now.path region.now) }
{
    if region.path.len() == 0 {
        out.extend("data_at(".as_bytes())?;
        put_typed(alloc, out, region)
    } else {
        out.extend("field_at(".as_bytes())?;
        put_typed(alloc, out, region)?;
        out.extend(", ".as_bytes())?;
        put_path(alloc, out, &region.path)
    }
}

/// Puts the value at the region at the end.
fn put_field(
    alloc: Global,
    out: &mut Bytes,
    region: &Region,
    value: &Term,
) -> Result<(), AllocError>
    ensures { OnOk result (out.new ≡ out.old ++ field_text region.now value.now) }
{
    put_place(alloc, out, region)?;
    out.extend(", ".as_bytes())?;
    put_term(alloc, out, value)?;
    put_root(alloc, out, region)
}

/// Puts the padding at the region at the end.
fn put_padding(alloc: Global, out: &mut Bytes, region: &Region) -> Result<(), AllocError>
    ensures { OnOk result (out.new ≡ out.old ++ padding_text region.now) }
{
    out.extend("padding(".as_bytes())?;
    put_typed(alloc, out, region)?;
    out.extend(", ".as_bytes())?;
    put_path(alloc, out, &region.path)?;
    put_root(alloc, out, region)
}

/// Puts the part at the end.
pub(crate) fn put_part(alloc: Global, out: &mut Bytes, part: &Sep) -> Result<(), AllocError>
    ensures { OnOk result (out.new ≡ out.old ++ part_text part.now) }
{
    match part {
        Sep::FieldAt(region, value) => put_field(alloc, out, region, value),
        Sep::Padding(region) => put_padding(alloc, out, region),
        Sep::Valid(term) => {
            out.extend("valid(".as_bytes())?;
            put_term(alloc, out, term)?;
            out.extend(")".as_bytes())
        }
        Sep::Anything => out.extend("TT".as_bytes()),
        Sep::Predicate(name, terms) => {
            out.extend(name.as_slice())?;
            out.extend("(".as_bytes())?;
            put_kids(alloc, out, ", ", false, terms.as_slice())?;
            out.extend(")".as_bytes())
        }
    }
}
