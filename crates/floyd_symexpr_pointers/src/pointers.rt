ghost use Rattle.std.specs.Prelude.{◌≡◌, ◌++◌, ◌∷◌, [], IfOk, OnOk, Some, pos};
ghost use Rattle.std.specs.Option.{option_copied};
ghost use Rattle.floyd_text.specs.Gives.{RuleGives};
ghost use Rattle.floyd_fieldpath.specs.Addresses.{element_offset as element_offset_lem, size_term as size_term_lem};
ghost use Rattle.floyd_fieldpath.specs.Nested.{literal as literal_lem, sized_type as sized_type_lem};
ghost use Rattle.floyd_fieldpath.specs.Projections.{kid_under};
ghost use Rattle.floyd_symexpr_rows.specs.Formulas.{at_most, is_pointer, saying};
ghost use Rattle.floyd_symexpr_rows.specs.Rows.{range, row as row_lem, vint as vint_lem};
ghost use Rattle.floyd_symexpr_pointers.specs.PointerRows.{base as base_lem, compared_pointer as compared_pointer_lem, compared_within as compared_within_lem, directed as directed_lem, equality as equality_lem, in_object as in_object_lem, is_null as is_null_lem, is_ptr_add as is_ptr_add_lem, negated_if as negated_if_lem, object_type as object_type_lem, offset as offset_lem, pointer_equality as pointer_equality_lem, pointer_moved as pointer_moved_lem, pointer_order as pointer_order_lem, type_in as type_in_lem, way as way_lem, within as within_lem};

use crate::identity::identical;
use floyd_assert_trees::Sep;
use floyd_ctypes::CType;
use floyd_fieldpath::{literal, moved, size_term, sized_type, times};
use floyd_folding::{folded, written};
use floyd_int::IntOp;
use floyd_symexpr_rows::{
    Needs, Number, Objects, compared, negated, no_base, say_at_most, say_from, say_pointer,
    say_range, vint,
};
use floyd_text::{RuleStop, Steps};
use floyd_tree::{AType, FormulaList, Head, Operator, Term, TermList, head, kids};
use std::alloc::{AllocError, Global};
use std::sync::ledger::Ledger;

fn is_null(head: &Head) -> bool
    ensures { result ≡ is_null_lem head.now }
{
    match head {
        Head::Operator(operator) => matches!(operator, Operator::Nullval),
        _ => false,
    }
}

/// Puts a pointer that is compared among the terms that must be valid, unless it is null.
fn add_compared(v: &Term, valid: &mut TermList) -> Result<(), AllocError>
    ensures { OnOk result (valid.new ≡ valid.old ++ compared_pointer_lem v.now) }
{
    if is_null(head(v)) {
        return Ok(());
    }
    valid.push(v.share()?)
}

/// Puts both among the terms that must be valid, but for nulls.
fn add_both(v: &Term, w: &Term, valid: &mut TermList) -> Result<(), AllocError>
    ensures { OnOk result (valid.new ≡ valid.old ++ compared_pointer_lem v.now ++ compared_pointer_lem w.now) }
{
    add_compared(v, valid)?;
    add_compared(w, valid)
}

fn negated_if<L: Ledger>(
    alloc: Global,
    test: bool,
    n: Term,
    steps: &mut Steps<L>,
) -> Result<Term, RuleStop>
    ensures exact { RuleGives (λ t. t) result (negated_if_lem test n) }
{
    if test {
        negated(alloc, &n, steps)
    } else {
        Ok(n)
    }
}

/// 1 where two values are equal, and else 0, or negated.
#[tactic(auto, using(floyd_symexpr_rows::proofs::SayingLemmas::goes_on, floyd_symexpr_rows::proofs::SayingLemmas::stops))]
fn equality<L: Ledger>(
    alloc: Global,
    negated: bool,
    v: &Term,
    w: &Term,
    steps: &mut Steps<L>,
) -> Result<Term, RuleStop>
    ensures exact { RuleGives (λ t. t) result (equality_lem negated v.now w.now) }
{
    let kids = [v.share()?, w.share()?];
    let e = written(alloc, Head::Operator(Operator::Eqv), &kids, steps)?;
    negated_if(alloc, negated, e, steps)
}

/// The row of a truth value of two pointers.
#[tactic(auto, using(crate::proofs::PointerLemmas::valid_gives, floyd_symexpr_rows::proofs::RowLemmas::row_stops_first))]
fn equality_row<L: Ledger>(
    alloc: Global,
    v: &Term,
    w: &Term,
    n: &Term,
    needs: &mut Needs,
    steps: &mut Steps<L>,
) -> Result<Term, RuleStop>
    ensures exact { RuleGives (λ t. (t, needs.new)) result (row_lem (vint_lem n.now) [] (record needs.old { valid = needs.old.valid ++ compared_pointer_lem v.now ++ compared_pointer_lem w.now })) }
{
    let value = vint(alloc, n, steps)?;
    add_both(v, w, &mut needs.valid)?;
    Ok(value)
}

/// `==` on pointers, or `!=` where it is negated.
#[tactic(auto, using(floyd_symexpr_rows::proofs::SayingLemmas::goes_on, floyd_symexpr_rows::proofs::SayingLemmas::stops))]
pub(crate) fn pointer_equality<L: Ledger>(
    alloc: Global,
    negated: bool,
    v: &Term,
    w: &Term,
    needs: &mut Needs,
    steps: &mut Steps<L>,
) -> Result<Term, RuleStop>
    ensures exact { RuleGives (λ t. (t, needs.new)) result (pointer_equality_lem negated v.now w.now needs.old) }
{
    let n = equality(alloc, negated, v, w, steps)?;
    equality_row(alloc, v, w, &n, needs, steps)
}

fn is_ptr_add(head: &Head) -> bool
    ensures { result ≡ is_ptr_add_lem head.now }
{
    match head {
        Head::Operator(operator) => matches!(operator, Operator::PtrAdd),
        _ => false,
    }
}

/// The kid at that place, from 0, of a pointer that is another one moved.
fn kid_of_moved(v: &Term, place: usize) -> Option<&Term>
    ensures { option_copied result ≡ kid_under is_ptr_add_lem place v.now }
{
    if is_ptr_add(head(v)) {
        kids(v).get(place)
    } else {
        None
    }
}

/// What a pointer is moved from, one level down.
fn base(v: &Term) -> &Term
    ensures { result.now ≡ base_lem v.now }
{
    match kid_of_moved(v, 0) {
        Some(root) => root,
        None => v,
    }
}

/// How far it is moved.
fn offset<L: Ledger>(alloc: Global, v: &Term, steps: &mut Steps<L>) -> Result<Term, AllocError>
    ensures { IfOk result (λ t. t ≡ offset_lem v.now) }
{
    match kid_of_moved(v, 1) {
        Some(bytes) => bytes.share(),
        None => literal(alloc, 0, steps),
    }
}

/// The type of a part that is a whole object at the root.
fn object_type<'a>(root: &Term, part: &'a Sep) -> Option<&'a AType>
    ensures { option_copied result ≡ object_type_lem root.now part.now }
{
    match part {
        Sep::FieldAt(region, _) => {
            if region.path.len() == 0 && identical(root, &region.root) {
                Some(&region.ty)
            } else {
                None
            }
        }
        _ => None,
    }
}

/// The type of the first part that is a whole object at the root.
fn type_in<'a>(parts: &'a [Sep], root: &Term) -> Option<&'a AType>
    ensures { option_copied result ≡ type_in_lem parts.now root.now }
{
    'parts: for part in parts {
        if let Some(t) = object_type(root, part) {
            return Some(t);
        }
    }
    None
}

/// That a number is at least 0 and at most the bytes of an object.
fn say_offset<L: Ledger>(
    alloc: Global,
    bytes: &Term,
    a: &Term,
    all: &mut FormulaList,
    steps: &mut Steps<L>,
) -> Result<(), RuleStop>
    ensures exact { RuleGives (λ u. all.new) result (saying all.old (at_most (literal_lem (pos 0)) a.now ∷ at_most a.now bytes.now ∷ [])) }
{
    say_from(alloc, 0, a, all, steps)?;
    say_at_most(alloc, a, bytes, all, steps)
}

/// That both numbers are so.
fn say_offsets<L: Ledger>(
    alloc: Global,
    bytes: &Term,
    a: &Term,
    b: &Term,
    all: &mut FormulaList,
    steps: &mut Steps<L>,
) -> Result<(), RuleStop>
    ensures exact { RuleGives (λ u. all.new) result (saying all.old (at_most (literal_lem (pos 0)) a.now ∷ at_most a.now bytes.now ∷ at_most (literal_lem (pos 0)) b.now ∷ at_most b.now bytes.now ∷ [])) }
{
    say_offset(alloc, bytes, a, all, steps)?;
    say_offset(alloc, bytes, b, all, steps)
}

fn say_within<L: Ledger>(
    alloc: Global,
    bytes: &Term,
    a: &Term,
    b: &Term,
    all: &mut FormulaList,
    steps: &mut Steps<L>,
) -> Result<(), RuleStop>
    ensures exact { RuleGives (λ u. all.new) result (saying all.old (within_lem bytes.now a.now b.now)) }
{
    say_from(alloc, 1, bytes, all, steps)?;
    say_offsets(alloc, bytes, a, b, all, steps)
}

/// Two offsets that are compared.
struct Offsets {
    left: Term,
    right: Term,
}

impl Drop for Offsets {
    fn drop(self) {
        let Offsets { left, right } = self;
        drop(left);
        drop(right);
    }
}

/// How far two pointers are moved.
fn offsets_of<L: Ledger>(
    alloc: Global,
    v: &Term,
    w: &Term,
    steps: &mut Steps<L>,
) -> Result<Offsets, AllocError>
    ensures { IfOk result (λ o. o ≡ record { left = offset_lem v.now; right = offset_lem w.now }) }
{
    let left = offset(alloc, v, steps)?;
    let right = offset(alloc, w, steps)?;
    Ok(Offsets { left, right })
}

/// The size of a type, as a term.
fn size_of<L: Ledger>(
    objects: &Objects<'_>,
    t: &AType,
    steps: &mut Steps<L>,
) -> Result<Term, RuleStop>
    ensures exact { RuleGives (λ n. n) result (size_term_lem objects.now.structs.now t.now.shape t.now.sizes) }
{
    let shape = t.shape().get();
    size_term(
        objects.alloc,
        objects.structs,
        shape,
        t.sizes().as_slice(),
        steps,
    )
}

/// The row of a truth value of two offsets.
#[tactic(auto, using(floyd_symexpr_rows::proofs::RowLemmas::row_gives, floyd_symexpr_rows::proofs::RowLemmas::row_stops_first, floyd_symexpr_rows::proofs::RowLemmas::row_stops))]
fn within_row<L: Ledger>(
    alloc: Global,
    bytes: &Term,
    offsets: &Offsets,
    n: &Term,
    needs: &mut Needs,
    steps: &mut Steps<L>,
) -> Result<Term, RuleStop>
    ensures exact { RuleGives (λ t. (t, needs.new)) result (row_lem (vint_lem n.now) (within_lem bytes.now offsets.now.left offsets.now.right) needs.old) }
{
    let value = vint(alloc, n, steps)?;
    say_within(
        alloc,
        bytes,
        &offsets.left,
        &offsets.right,
        &mut needs.sides,
        steps,
    )?;
    Ok(value)
}

/// A comparison of two offsets in an object of so many bytes.
#[tactic(auto, using(floyd_symexpr_rows::proofs::SayingLemmas::goes_on, floyd_symexpr_rows::proofs::SayingLemmas::stops))]
fn compared_within<L: Ledger>(
    alloc: Global,
    op: IntOp,
    bytes: &Term,
    offsets: &Offsets,
    needs: &mut Needs,
    steps: &mut Steps<L>,
) -> Result<Term, RuleStop>
    ensures exact { RuleGives (λ t. (t, needs.new)) result (compared_within_lem op bytes.now offsets.now.left offsets.now.right needs.old) }
{
    let n = compared(alloc, op, &offsets.left, &offsets.right, steps)?;
    within_row(alloc, bytes, offsets, &n, needs, steps)
}

/// A comparison of two offsets in an object of the type.
#[tactic(auto, using(floyd_symexpr_rows::proofs::SayingLemmas::goes_on, floyd_symexpr_rows::proofs::SayingLemmas::stops))]
fn in_object<L: Ledger>(
    objects: &Objects<'_>,
    op: IntOp,
    t: &AType,
    offsets: &Offsets,
    needs: &mut Needs,
    steps: &mut Steps<L>,
) -> Result<Term, RuleStop>
    ensures exact { RuleGives (λ t. (t, needs.new)) result (in_object_lem objects.now.structs.now op offsets.now.left offsets.now.right needs.old (Some t.now)) }
{
    let bytes = size_of(objects, t, steps)?;
    compared_within(objects.alloc, op, &bytes, offsets, needs, steps)
}

/// `<`, `<=`, `>` and `>=` on pointers.
pub(crate) fn pointer_order<L: Ledger>(
    objects: &Objects<'_>,
    op: IntOp,
    v: &Term,
    w: &Term,
    needs: &mut Needs,
    steps: &mut Steps<L>,
) -> Result<Term, RuleStop>
    ensures exact { RuleGives (λ t. (t, needs.new)) result (pointer_order_lem objects.now.structs.now objects.now.parts.now op v.now w.now needs.old) }
{
    if !identical(base(v), base(w)) {
        return Err(RuleStop::No(no_base()));
    }
    let Some(t) = type_in(objects.parts, base(v)) else {
        return Err(RuleStop::No(no_base()));
    };
    let both = offsets_of(objects.alloc, v, w, steps)?;
    in_object(objects, op, t, &both, needs, steps)
}

fn directed<L: Ledger>(
    alloc: Global,
    down: bool,
    bytes: Term,
    steps: &mut Steps<L>,
) -> Result<Term, RuleStop>
    ensures exact { RuleGives (λ t. t) result (directed_lem down bytes) }
{
    if !down {
        return Ok(bytes);
    }
    let zero = literal(alloc, 0, steps)?;
    folded(alloc, Operator::Sub, &zero, &bytes, steps)
}

/// So many elements of the type, in bytes.
#[tactic(auto, using(floyd_symexpr_rows::proofs::SayingLemmas::goes_on, floyd_symexpr_rows::proofs::SayingLemmas::stops))]
fn element_offset<L: Ledger>(
    objects: &Objects<'_>,
    element: &CType,
    i: &Term,
    steps: &mut Steps<L>,
) -> Result<Term, RuleStop>
    ensures exact { RuleGives (λ t. t) result (element_offset_lem objects.now.structs.now (sized_type_lem element.now) i.now) }
{
    let t = sized_type(objects.alloc, element, steps)?;
    let bytes = size_of(objects, &t, steps)?;
    times(objects.alloc, &bytes, i, steps)
}

/// The number of bytes of so many elements of the type, up or down.
#[tactic(auto, using(floyd_symexpr_rows::proofs::SayingLemmas::goes_on, floyd_symexpr_rows::proofs::SayingLemmas::stops))]
pub(crate) fn way<L: Ledger>(
    objects: &Objects<'_>,
    down: bool,
    element: &CType,
    i: &Term,
    steps: &mut Steps<L>,
) -> Result<Term, RuleStop>
    ensures exact { RuleGives (λ t. t) result (way_lem objects.now.structs.now down element.now i.now) }
{
    let bytes = element_offset(objects, element, i, steps)?;
    directed(objects.alloc, down, bytes, steps)
}

/// That the value is a pointer, and the number one of its kind.
fn say_moved<L: Ledger>(
    alloc: Global,
    p: &Term,
    i: &Number,
    all: &mut FormulaList,
    steps: &mut Steps<L>,
) -> Result<(), RuleStop>
    ensures exact { RuleGives (λ u. all.new) result (saying all.old (is_pointer p.now ∷ range i.now.kind i.now.term)) }
{
    say_pointer(alloc, p, all, steps)?;
    say_range(alloc, i.kind, &i.term, all, steps)
}

/// `p + i` and `p - i`, which move the pointer by so many bytes.
#[tactic(auto, using(floyd_symexpr_rows::proofs::RowLemmas::row_gives, floyd_symexpr_rows::proofs::RowLemmas::row_stops_first, floyd_symexpr_rows::proofs::RowLemmas::row_stops))]
pub(crate) fn pointer_moved<L: Ledger>(
    alloc: Global,
    p: &Term,
    by: &Term,
    i: &Number,
    needs: &mut Needs,
    steps: &mut Steps<L>,
) -> Result<Term, RuleStop>
    ensures exact { RuleGives (λ t. (t, needs.new)) result (pointer_moved_lem p.now by.now i.now needs.old) }
{
    let value = moved(alloc, p, by, steps)?;
    say_moved(alloc, p, i, &mut needs.sides, steps)?;
    Ok(value)
}
