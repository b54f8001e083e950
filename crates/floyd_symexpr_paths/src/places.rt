ghost use Rattle.std.specs.Prelude.{◌≡◌, ◌++◌, IfOk};
ghost use Rattle.floyd_fieldpath.specs.Addresses.{address as address_lem};
ghost use Rattle.floyd_fieldpath.specs.Nested.{sized_type as sized_type_lem};
ghost use Rattle.floyd_text.specs.Gives.{RuleGives};
ghost use Rattle.floyd_symexpr_rows.specs.Formulas.{saying};
ghost use Rattle.floyd_symexpr_paths.specs.Places.{address_row as address_row_lem, element as element_lem, elements_at as elements_at_lem, field as field_lem, first as first_lem, no_part as no_part_lem, object_at as object_at_lem, object_value as object_value_lem, own as own_lem, path_of as path_of_lem, pointed as pointed_lem, root_of as root_of_lem, root_sides as root_sides_lem, subscript_ranges as subscript_ranges_lem, variable as variable_lem};

use crate::lvalue::{Lvalue, NumberList, Taken, TakenList};
use floyd_clight::Binding;
use floyd_ctypes::{CType, StructTable};
use floyd_fieldpath::{address, literal, sized_type};
use floyd_int::IntKind;
use floyd_symexpr_rows::{Needs, Number, not_number, say_pointer, say_range};
use floyd_text::{Code, Name, No, RuleStop, Shared, Shown, Steps};
use floyd_tree::{FormulaList, Head, MakeStop, Path, PathStep, Term, make};
use std::alloc::{AllocError, Global};
use std::sync::ledger::Ledger;

/// The refusal of what lies in no part of memory.
pub fn no_part() -> No
    ensures { result ≡ no_part_lem }
{
    No {
        code: Code::NoPart,
        shown: Shown::Nothing,
    }
}

/// The whole object of a type at a root.
fn object_at(alloc: Global, root: Term, is_value: bool, whole: CType) -> Lvalue
    ensures { result ≡ object_at_lem root is_value whole }
{
    Lvalue {
        root,
        is_value,
        whole,
        form: TakenList::new(alloc),
        subscripts: NumberList::new(alloc),
    }
}

/// The address of a variable or a function.
fn root_of<L: Ledger>(
    alloc: Global,
    binding: Binding,
    name: &Name,
    steps: &mut Steps<L>,
) -> Result<Term, AllocError>
    ensures { IfOk result (λ t. t ≡ root_of_lem binding name.now) }
{
    let head = match binding {
        Binding::Block => Head::Lv(name.share()?),
        Binding::File => Head::Gv(name.share()?),
    };
    match make(alloc, head, &[], steps) {
        Ok(t) => Ok(t),
        Err(MakeStop::Memory) => Err(AllocError),
        Err(MakeStop::IllSorted) => unreachable!(),
        Err(MakeStop::TooLarge) => unreachable!(),
    }
}

/// A variable of this name.
pub fn variable<L: Ledger>(
    alloc: Global,
    binding: Binding,
    name: &Name,
    t: &CType,
    steps: &mut Steps<L>,
) -> Result<Lvalue, AllocError>
    ensures { IfOk result (λ l. l ≡ variable_lem binding name.now t.now) }
{
    let root = root_of(alloc, binding, name, steps)?;
    let whole = t.share(alloc)?;
    Ok(object_at(alloc, root, false, whole))
}

/// The object of a type that a pointer leads to.
pub fn pointed(alloc: Global, v: Term, t: &CType) -> Result<Lvalue, AllocError>
    ensures { IfOk result (λ l. l ≡ pointed_lem v t.now) }
{
    let whole = t.share(alloc)?;
    Ok(object_at(alloc, v, true, whole))
}

/// The objects of a type that a pointer leads to, as an array.
pub fn elements_at(alloc: Global, v: Term, t: &CType) -> Result<Lvalue, AllocError>
    ensures { IfOk result (λ l. l ≡ elements_at_lem v t.now) }
{
    let element = t.share(alloc)?;
    let whole = CType::Array(Shared::new(alloc, element)?, 0);
    Ok(object_at(alloc, v, true, whole))
}

/// A step with the type beside it.
fn own<L: Ledger>(
    alloc: Global,
    step: PathStep,
    t: &CType,
    steps: &mut Steps<L>,
) -> Result<Taken, AllocError>
    ensures { IfOk result (λ o. o ≡ own_lem step (sized_type_lem t.now)) }
{
    let ty = Some(sized_type(alloc, t, steps)?);
    Ok(Taken { step, ty })
}

/// The path of a form.
pub(crate) fn path_of(alloc: Global, form: &[Taken]) -> Result<Path, AllocError>
    ensures { IfOk result (λ p. p ≡ path_of_lem form.now) }
{
    let mut path = Path::new(alloc);
    'steps: for taken in form {
        path.push(taken.step.share()?)?;
    }
    Ok(path)
}

/// The field of that name in an object, which is a struct of this type.
pub fn field<L: Ledger>(
    alloc: Global,
    whole: &CType,
    name: &Name,
    l: Lvalue,
    steps: &mut Steps<L>,
) -> Result<Lvalue, AllocError>
    ensures { IfOk result (λ m. m ≡ field_lem whole.now name.now l) }
{
    let mut l = l;
    let step = PathStep::Field(name.share()?);
    l.form.push(own(alloc, step, whole, steps)?)?;
    Ok(l)
}

/// An element, which has this type, of an object that is an array.
pub fn element<L: Ledger>(
    alloc: Global,
    t: &CType,
    i: Number,
    l: Lvalue,
    steps: &mut Steps<L>,
) -> Result<Lvalue, AllocError>
    ensures { IfOk result (λ m. m ≡ element_lem t.now i l) }
{
    let mut l = l;
    let step = PathStep::Subscript(i.term.share()?);
    l.form.push(own(alloc, step, t, steps)?)?;
    l.subscripts.push(i)?;
    Ok(l)
}

/// The subscript 0.
pub fn first<L: Ledger>(alloc: Global, steps: &mut Steps<L>) -> Result<Number, AllocError>
    ensures { IfOk result (λ n. n ≡ first_lem) }
{
    Ok(Number {
        kind: IntKind::I32,
        term: literal(alloc, 0, steps)?,
    })
}

/// Puts behind other formulas that each number is one of its kind.
#[tactic(auto, using(crate::proofs::PlaceLemmas::ranges_on))]
fn say_each_range<L: Ledger>(
    alloc: Global,
    numbers: &[Number],
    all: &mut FormulaList,
    steps: &mut Steps<L>,
) -> Result<(), RuleStop>
    ensures exact { RuleGives (λ u. all.new) result (saying all.old (subscript_ranges_lem numbers.now)) }
{
    'numbers: for i in numbers {
        say_range(alloc, i.kind, &i.term, all, steps)?;
    }
    Ok(())
}

/// Puts behind other formulas that each subscript of an object is one of its kind.
pub(crate) fn say_subscripts<L: Ledger>(
    alloc: Global,
    l: &Lvalue,
    all: &mut FormulaList,
    steps: &mut Steps<L>,
) -> Result<(), RuleStop>
    ensures exact { RuleGives (λ u. all.new) result (saying all.old (subscript_ranges_lem l.now.subscripts)) }
{
    say_each_range(alloc, l.subscripts.as_slice(), all, steps)
}

/// That a root which is a pointer's value is a pointer.
fn say_root<L: Ledger>(
    alloc: Global,
    l: &Lvalue,
    all: &mut FormulaList,
    steps: &mut Steps<L>,
) -> Result<(), RuleStop>
    ensures exact { RuleGives (λ u. all.new) result (saying all.old (root_sides_lem l.now)) }
{
    if !l.is_value {
        return Ok(());
    }
    say_pointer(alloc, &l.root, all, steps)
}

#[tactic(auto, using(floyd_symexpr_rows::proofs::SayingLemmas::more_said, floyd_symexpr_rows::proofs::SayingLemmas::said_stops))]
fn say_address<L: Ledger>(
    alloc: Global,
    l: &Lvalue,
    all: &mut FormulaList,
    steps: &mut Steps<L>,
) -> Result<(), RuleStop>
    ensures exact { RuleGives (λ u. all.new) result (saying all.old (root_sides_lem l.now ++ subscript_ranges_lem l.now.subscripts)) }
{
    say_root(alloc, l, all, steps)?;
    say_subscripts(alloc, l, all, steps)
}

/// The address of an object.
fn address_of<L: Ledger>(
    alloc: Global,
    structs: &StructTable,
    l: &Lvalue,
    steps: &mut Steps<L>,
) -> Result<Term, RuleStop>
    ensures exact { RuleGives (λ t. t) result (address_lem structs.now (sized_type_lem l.now.whole) (path_of_lem l.now.form) l.now.root) }
{
    let whole = sized_type(alloc, &l.whole, steps)?;
    let path = path_of(alloc, l.form.as_slice())?;
    address(alloc, structs, &whole, &path, &l.root, steps)
}

/// `&lv`.
#[tactic(auto, using(floyd_symexpr_rows::proofs::RowLemmas::row_gives, floyd_symexpr_rows::proofs::RowLemmas::row_stops_first, floyd_symexpr_rows::proofs::RowLemmas::row_stops))]
pub fn address_row<L: Ledger>(
    alloc: Global,
    structs: &StructTable,
    l: &Lvalue,
    needs: &mut Needs,
    steps: &mut Steps<L>,
) -> Result<Term, RuleStop>
    ensures exact { RuleGives (λ t. (t, needs.new)) result (address_row_lem structs.now l.now needs.old) }
{
    let a = address_of(alloc, structs, l, steps)?;
    say_address(alloc, l, &mut needs.sides, steps)?;
    Ok(a)
}

/// The term of an object of this type as a value: the address of an array, a struct or a function. A number or a pointer
/// in memory has none.
#[tactic(auto, using(crate::proofs::PlaceLemmas::value_of_array, crate::proofs::PlaceLemmas::value_of_function, crate::proofs::PlaceLemmas::value_of_pointer))]
pub fn object_value<L: Ledger>(
    alloc: Global,
    structs: &StructTable,
    t: &CType,
    l: &Lvalue,
    needs: &mut Needs,
    steps: &mut Steps<L>,
) -> Result<Term, RuleStop>
    ensures exact { RuleGives (λ v. (v, needs.new)) result (object_value_lem structs.now t.now l.now needs.old) }
{
    match t {
        CType::Array(_, _) => address_row(alloc, structs, l, needs, steps),
        CType::Struct(_) => address_row(alloc, structs, l, needs, steps),
        CType::Function(_, _) => address_row(alloc, structs, l, needs, steps),
        CType::Void => Err(RuleStop::No(not_number())),
        CType::Int(_) => Err(RuleStop::No(not_number())),
        CType::Pointer(_) => Err(RuleStop::No(not_number())),
    }
}
