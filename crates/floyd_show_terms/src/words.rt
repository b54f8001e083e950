ghost use Rattle.std.specs.Prelude.{◌≡◌, ◌++◌, OnOk};
ghost use Rattle.floyd_show_terms.specs.Words as spec;

use floyd_int::IntKind;
use floyd_text::Bytes;
use floyd_tree::{Operator, Sort};
use std::alloc::AllocError;

/// Where the text of an operator stands.
#[derive(Clone, Copy)]
pub(crate) enum Style {
    /// It has no arguments.
    Alone,
    /// Before its arguments, which stand in parentheses.
    Applied,
    /// Between its arguments.
    Between,
}

pub(crate) fn style_of(operator: Operator) -> Style
    ensures { result ≡ spec.style_of operator }
{
    match operator {
        Operator::Add | Operator::Sub | Operator::Mul | Operator::Cons | Operator::Append => {
            Style::Between
        }
        Operator::Vundef | Operator::Nullval => Style::Alone,
        _ => Style::Applied,
    }
}

/// The text of an operator.
pub(crate) fn operator_text(operator: Operator) -> &'static str
    ensures { result.now ≡ spec.operator_text operator }
{
    match operator {
        Operator::Vundef => "Vundef",
        Operator::Vint => "Vint",
        Operator::Vlong => "Vlong",
        Operator::Nullval => "nullval",
        Operator::PtrAdd => "ptr_add",
        Operator::Vints => "vints",
        Operator::Vlongs => "vlongs",
        Operator::Fst => "fst",
        Operator::Snd => "snd",
        Operator::Len => "len",
        Operator::Nth => "nth",
        Operator::Upd => "upd",
        Operator::Rev => "rev",
        Operator::Sum => "sum",
        Operator::Sublist => "sublist",
        Operator::Repeat => "repeat",
        Operator::Node => "Node",
        Operator::Quot => "quot",
        Operator::Rem => "rem",
        Operator::Band => "band",
        Operator::Bor => "bor",
        Operator::Bxor => "bxor",
        Operator::Bnot => "bnot",
        Operator::Shl => "shl",
        Operator::Shr => "shr",
        Operator::Eqz => "eqz",
        Operator::Ltz => "ltz",
        Operator::Lez => "lez",
        Operator::Eqv => "eqv",
        Operator::Add => " + ",
        Operator::Sub => " - ",
        Operator::Mul => " * ",
        Operator::Cons => " :: ",
        Operator::Append => " ++ ",
        Operator::Pair => "",
    }
}

/// The text of a type of integers.
pub(crate) fn kind_text(kind: IntKind) -> &'static str
    ensures { result.now ≡ spec.kind_text kind }
{
    match kind {
        IntKind::I8 => "char",
        IntKind::U8 => "uchar",
        IntKind::I16 => "short",
        IntKind::U16 => "ushort",
        IntKind::I32 => "int",
        IntKind::U32 => "uint",
        IntKind::I64 => "long",
        IntKind::U64 => "ulong",
    }
}

/// Puts the sort at the end, without parentheses.
#[tactic(auto, using(crate::proofs::WordLemmas::list_text, crate::proofs::WordLemmas::tree_text, crate::proofs::WordLemmas::pair_text))]
pub fn put_sort(out: &mut Bytes, sort: &Sort) -> Result<(), AllocError>
    ensures { OnOk result (out.new ≡ out.old ++ spec.sort_text sort.now) }
{
    match sort {
        Sort::Z => out.extend("Z".as_bytes()),
        Sort::Val => out.extend("val".as_bytes()),
        Sort::ListOf(item) => {
            out.extend("list ".as_bytes())?;
            put_sort(out, item.get())
        }
        Sort::TreeOf(item) => {
            out.extend("tree ".as_bytes())?;
            put_sort(out, item.get())
        }
        Sort::Prod(first, second) => {
            out.extend("prod ".as_bytes())?;
            put_sort(out, first.get())?;
            out.extend(" ".as_bytes())?;
            put_sort(out, second.get())
        }
    }
}
