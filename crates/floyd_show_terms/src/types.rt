ghost use Rattle.std.specs.Prelude.{◌≡◌, ◌++◌, OnOk, IfOk, drop};
ghost use Rattle.floyd_tree_sorts.specs.Table.{arrays};
ghost use Rattle.floyd_tree_sorts.specs.ShapeClauses.{arrays_of};
ghost use Rattle.floyd_show_terms.specs.Types.{first_text, type_text};
ghost use Rattle.floyd_show_terms.specs.TypesClauses.{parameters_text};

use crate::words::kind_text;
use floyd_text::Bytes;
use floyd_tree::Shape;
use std::alloc::AllocError;

/// Puts the first text at the end, if there is one.
pub(crate) fn put_first(out: &mut Bytes, texts: &[Bytes]) -> Result<(), AllocError>
    ensures { OnOk result (out.new ≡ out.old ++ first_text texts.now) }
{
    match texts.first() {
        None => Ok(()),
        Some(text) => out.extend(text.as_slice()),
    }
}

/// What stands behind the first.
pub(crate) fn behind_first(texts: &[Bytes]) -> &[Bytes]
    ensures { result.now ≡ drop 1 texts.now }
{
    match texts {
        [] => texts,
        [_, rest @ ..] => rest,
    }
}

/// Puts the type at the end, with these texts for the sizes of its arrays, and gives those that are left.
#[cycle(types)]
#[tactic(auto, using(crate::proofs::TypeLemmas::pointer_text, crate::proofs::TypeLemmas::array_text, crate::proofs::TypeLemmas::function_is, crate::proofs::TypeLemmas::pointer_arrays, crate::proofs::TypeLemmas::array_left, crate::proofs::TypeLemmas::function_left))]
pub(crate) fn put_type<'a>(
    out: &mut Bytes,
    shape: &Shape,
    sizes: &'a [Bytes],
) -> Result<&'a [Bytes], AllocError>
    ensures text { OnOk result (out.new ≡ out.old ++ type_text shape.now sizes.now) }
    ensures left { IfOk result (λ left. left.now ≡ drop (arrays shape.now) sizes.now) }
{
    match shape {
        Shape::Void => {
            out.extend("void".as_bytes())?;
            Ok(sizes)
        }
        Shape::Int(kind) => {
            out.extend(kind_text(*kind).as_bytes())?;
            Ok(sizes)
        }
        Shape::Struct(tag) => {
            out.extend("struct ".as_bytes())?;
            out.extend(tag.as_slice())?;
            Ok(sizes)
        }
        Shape::Pointer(target) => {
            out.extend("ptr(".as_bytes())?;
            let left = put_type(out, target.get(), sizes)?;
            out.extend(")".as_bytes())?;
            Ok(left)
        }
        Shape::Array(item) => {
            out.extend("array(".as_bytes())?;
            let left = put_type(out, item.get(), behind_first(sizes))?;
            out.extend(", ".as_bytes())?;
            put_first(out, sizes)?;
            out.extend(")".as_bytes())?;
            Ok(left)
        }
        Shape::Function(parameters, result) => {
            out.extend("fn(".as_bytes())?;
            let left = put_parameters(out, parameters.as_slice(), sizes)?;
            let left = put_type(out, result.get(), left)?;
            out.extend(")".as_bytes())?;
            Ok(left)
        }
    }
}

/// Puts the types at the end, each with the mark behind it.
#[cycle(types)]
fn put_parameters<'a>(
    out: &mut Bytes,
    shapes: &[Shape],
    sizes: &'a [Bytes],
) -> Result<&'a [Bytes], AllocError>
    ensures text { OnOk result (out.new ≡ out.old ++ parameters_text shapes.now sizes.now) }
    ensures left { IfOk result (λ left. left.now ≡ drop (arrays_of shapes.now) sizes.now) }
{
    let mut left = sizes;
    'shapes: for shape in shapes {
        left = put_type(out, shape, left)?;
        out.extend("; ".as_bytes())?;
    }
    Ok(left)
}
