use crate::trees::{Stop, Tree, part, text};
use floyd_int::IntKind;
use floyd_text::{Name, Shared};
use floyd_tree::{
    FormulaHead, Head, Operator, Shape, Sort, SortList, StepShape, StepShapeList, Width,
};
use sqlite_items::Items;
use std::alloc::Global;

/// An operator with its word.
struct Entry {
    word: &'static str,
    operator: Operator,
}

static OPERATORS: [Entry; 35] = [
    Entry {
        word: "Vundef",
        operator: Operator::Vundef,
    },
    Entry {
        word: "Vint",
        operator: Operator::Vint,
    },
    Entry {
        word: "Vlong",
        operator: Operator::Vlong,
    },
    Entry {
        word: "Nullval",
        operator: Operator::Nullval,
    },
    Entry {
        word: "PtrAdd",
        operator: Operator::PtrAdd,
    },
    Entry {
        word: "Vints",
        operator: Operator::Vints,
    },
    Entry {
        word: "Vlongs",
        operator: Operator::Vlongs,
    },
    Entry {
        word: "Fst",
        operator: Operator::Fst,
    },
    Entry {
        word: "Snd",
        operator: Operator::Snd,
    },
    Entry {
        word: "Len",
        operator: Operator::Len,
    },
    Entry {
        word: "Nth",
        operator: Operator::Nth,
    },
    Entry {
        word: "Upd",
        operator: Operator::Upd,
    },
    Entry {
        word: "Rev",
        operator: Operator::Rev,
    },
    Entry {
        word: "Sum",
        operator: Operator::Sum,
    },
    Entry {
        word: "Sublist",
        operator: Operator::Sublist,
    },
    Entry {
        word: "Repeat",
        operator: Operator::Repeat,
    },
    Entry {
        word: "Node",
        operator: Operator::Node,
    },
    Entry {
        word: "Quot",
        operator: Operator::Quot,
    },
    Entry {
        word: "Rem",
        operator: Operator::Rem,
    },
    Entry {
        word: "Band",
        operator: Operator::Band,
    },
    Entry {
        word: "Bor",
        operator: Operator::Bor,
    },
    Entry {
        word: "Bxor",
        operator: Operator::Bxor,
    },
    Entry {
        word: "Bnot",
        operator: Operator::Bnot,
    },
    Entry {
        word: "Shl",
        operator: Operator::Shl,
    },
    Entry {
        word: "Shr",
        operator: Operator::Shr,
    },
    Entry {
        word: "Eqz",
        operator: Operator::Eqz,
    },
    Entry {
        word: "Ltz",
        operator: Operator::Ltz,
    },
    Entry {
        word: "Lez",
        operator: Operator::Lez,
    },
    Entry {
        word: "Eqv",
        operator: Operator::Eqv,
    },
    Entry {
        word: "Add",
        operator: Operator::Add,
    },
    Entry {
        word: "Sub",
        operator: Operator::Sub,
    },
    Entry {
        word: "Mul",
        operator: Operator::Mul,
    },
    Entry {
        word: "Cons",
        operator: Operator::Cons,
    },
    Entry {
        word: "Append",
        operator: Operator::Append,
    },
    Entry {
        word: "Pair",
        operator: Operator::Pair,
    },
];

/// `Z`, `val`, `(list S)`, `(tree S)` or `(prod S S)`.
pub fn sort_of(alloc: Global, tree: &Tree) -> Result<Sort, Stop> {
    match tree {
        Tree::Word(word) => match text(word) {
            "Z" => Ok(Sort::Z),
            "val" => Ok(Sort::Val),
            _ => Err(Stop::Unreadable),
        },
        Tree::Group(parts) => match parts.as_slice() {
            [of, a] => sort_over(alloc, of.word(), sort_of(alloc, a)?),
            [_, a, b] => {
                let a = sort_of(alloc, a)?;
                let b = sort_of(alloc, b)?;
                Ok(Sort::pair(alloc, a, b)?)
            }
            _ => Err(Stop::Unreadable),
        },
    }
}

fn sort_over(alloc: Global, word: &str, item: Sort) -> Result<Sort, Stop> {
    match word {
        "list" => Ok(Sort::list_of(alloc, item)?),
        "tree" => Ok(Sort::tree_of(alloc, item)?),
        _ => Err(Stop::Unreadable),
    }
}

fn sorts_of(alloc: Global, trees: &[Tree]) -> Result<SortList, Stop> {
    let mut all = Items::new(alloc);
    'trees: for tree in trees {
        all.push(sort_of(alloc, tree)?)?;
    }
    Ok(all)
}

/// The kind of integers of that word.
fn kind_of(word: &str) -> Option<IntKind> {
    match word {
        "int" => Some(IntKind::I32),
        "i8" => Some(IntKind::I8),
        "u8" => Some(IntKind::U8),
        "i16" => Some(IntKind::I16),
        "u16" => Some(IntKind::U16),
        "u32" => Some(IntKind::U32),
        "i64" => Some(IntKind::I64),
        "u64" => Some(IntKind::U64),
        _ => None,
    }
}

/// The shape of that word: a kind of integers, void, or the struct with that tag.
fn bare_shape_of(word: &Name) -> Result<Shape, Stop> {
    match kind_of(text(word)) {
        Some(kind) => Ok(Shape::Int(kind)),
        None if text(word) == "void" => Ok(Shape::Void),
        None => Ok(Shape::Struct(word.share()?)),
    }
}

/// `void`, `int`, the sign and bits of another kind as `u8`, a struct's tag, `(ptr T)`, `(array T)`, or `(fn T)`, a function
/// without parameters.
pub fn shape_of(alloc: Global, tree: &Tree) -> Result<Shape, Stop> {
    match tree {
        Tree::Word(word) => bare_shape_of(word),
        Tree::Group(parts) => match parts.as_slice() {
            [of, a] => shape_over(alloc, of.word(), shape_of(alloc, a)?),
            _ => Err(Stop::Unreadable),
        },
    }
}

fn shape_over(alloc: Global, word: &str, shape: Shape) -> Result<Shape, Stop> {
    let shape = Shared::new(alloc, shape)?;
    match word {
        "ptr" => Ok(Shape::Pointer(shape)),
        "array" => Ok(Shape::Array(shape)),
        "fn" => Ok(Shape::Function(Items::new(alloc), shape)),
        _ => Err(Stop::Unreadable),
    }
}

/// `.name` for a field, and any other word for a subscript.
fn path_of(alloc: Global, trees: &[Tree]) -> Result<StepShapeList, Stop> {
    let mut all = Items::new(alloc);
    'trees: for tree in trees {
        let step = if tree.word().starts_with('.') {
            StepShape::Field(tree.name()?)
        } else {
            StepShape::Subscript
        };
        all.push(step)?;
    }
    Ok(all)
}

fn width_of(tree: &Tree) -> Result<Width, Stop> {
    match tree.word() {
        "8" => Ok(Width::Bits8),
        "16" => Ok(Width::Bits16),
        "32" => Ok(Width::Bits32),
        "64" => Ok(Width::Bits64),
        _ => Err(Stop::Unreadable),
    }
}

fn operator_of(word: &str) -> Option<Operator> {
    'entries: for entry in OPERATORS.iter() {
        if entry.word == word {
            return Some(entry.operator);
        }
    }
    None
}

/// A head, and how many trees are its own parts. The others are its kids.
pub type OwnHead = (Head, usize);

/// The head of that word.
pub fn head_of(alloc: Global, word: &str, trees: &[Tree]) -> Result<OwnHead, Stop> {
    if let Some(operator) = operator_of(word) {
        return Ok((Head::Operator(operator), 0));
    }
    let first = part(trees, 0)?;
    match word {
        "Literal" => Ok((Head::Literal(first.number()?), 1)),
        "Gv" => Ok((Head::Gv(first.name()?), 1)),
        "Lv" => Ok((Head::Lv(first.name()?), 1)),
        "Nil" => Ok((Head::Nil(sort_of(alloc, first)?), 1)),
        "Leaf" => Ok((Head::Leaf(sort_of(alloc, first)?), 1)),
        "Signed" => Ok((Head::Signed(width_of(first)?), 1)),
        "Unsigned" => Ok((Head::Unsigned(width_of(first)?), 1)),
        "Var" => Ok((
            Head::Variable(first.name()?, sort_of(alloc, part(trees, 1)?)?),
            2,
        )),
        "Default" => Ok((default_of(alloc, first, part(trees, 1)?)?, 2)),
        "Fun" => Ok((fun_of(alloc, first, part(trees, 1)?, part(trees, 2)?)?, 3)),
        _ => Err(Stop::Unreadable),
    }
}

fn default_of(alloc: Global, shape: &Tree, sort: &Tree) -> Result<Head, Stop> {
    let shape = Shared::new(alloc, shape_of(alloc, shape)?)?;
    Ok(Head::Default(shape, sort_of(alloc, sort)?))
}

fn fun_of(alloc: Global, name: &Tree, sorts: &Tree, sort: &Tree) -> Result<Head, Stop> {
    let sorts = Shared::new(alloc, sorts_of(alloc, sorts.parts())?)?;
    Ok(Head::Fun(name.name()?, sorts, sort_of(alloc, sort)?))
}

/// The same of a formula. The others are its terms, and then its formulas.
pub type OwnFormulaHead = (FormulaHead, usize);

/// The head of that word, if it has no parts.
fn bare_formula_head_of(word: &str) -> Option<FormulaHead> {
    match word {
        "True" => Some(FormulaHead::True),
        "False" => Some(FormulaHead::False),
        "Implies" => Some(FormulaHead::Implies),
        "Or" => Some(FormulaHead::Or),
        "And" => Some(FormulaHead::And),
        "Equal" => Some(FormulaHead::Equal),
        "AtMost" => Some(FormulaHead::AtMost),
        "IsPtr" => Some(FormulaHead::IsPtr),
        "Defined" => Some(FormulaHead::Defined),
        _ => None,
    }
}

/// The head of that word.
pub fn formula_head_of(alloc: Global, word: &str, trees: &[Tree]) -> Result<OwnFormulaHead, Stop> {
    if let Some(head) = bare_formula_head_of(word) {
        return Ok((head, 0));
    }
    let first = part(trees, 0)?;
    match word {
        "FuncPtr" => Ok((FormulaHead::FuncPtr(first.name()?), 1)),
        "Hasty" => Ok((
            FormulaHead::Hasty(Shared::new(alloc, shape_of(alloc, first)?)?),
            1,
        )),
        "Forall" => Ok((forall_of(alloc, first, part(trees, 1)?)?, 2)),
        "Exists" => Ok((exists_of(alloc, first, part(trees, 1)?)?, 2)),
        "Compatible" => Ok((compatible_of(alloc, first, part(trees, 1)?)?, 2)),
        _ => Err(Stop::Unreadable),
    }
}

fn forall_of(alloc: Global, name: &Tree, sort: &Tree) -> Result<FormulaHead, Stop> {
    Ok(FormulaHead::Forall(name.name()?, sort_of(alloc, sort)?))
}

fn exists_of(alloc: Global, name: &Tree, sort: &Tree) -> Result<FormulaHead, Stop> {
    Ok(FormulaHead::Exists(name.name()?, sort_of(alloc, sort)?))
}

fn compatible_of(alloc: Global, shape: &Tree, path: &Tree) -> Result<FormulaHead, Stop> {
    let shape = Shared::new(alloc, shape_of(alloc, shape)?)?;
    let path = Shared::new(alloc, path_of(alloc, path.parts())?)?;
    Ok(FormulaHead::Compatible(shape, path))
}
