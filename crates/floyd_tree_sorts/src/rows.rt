ghost use Rattle.std.specs.Prelude.{◌≡◌, ◌+◌, ◌&&◌, nat_eq, length};
ghost use Rattle.floyd_tree_sorts.specs.Rows.{numbers_then_val, subscripts, takes, takes_formulas, takes_one, takes_row, takes_two};
ghost use Rattle.floyd_tree_sorts.specs.Table.{arrays};

use crate::connectives::{FormulaHead, StepShape};
use crate::shape::{Shape, has_arrays};
use crate::sorts::Sort;

/// Whether the head takes terms of these sorts and this number of formulas.
pub fn takes(head: &FormulaHead, sorts: &[Sort], count: usize) -> bool
    ensures { result ≡ takes head.now sorts.now count }
{
    match head {
        FormulaHead::Hasty(shape) => {
            shape.get().is_scalar()
                && count == 0
                && has_numbers(shape.get(), 0, sorts)
                && numbers_then_val(sorts)
        }
        FormulaHead::Compatible(shape, path) => {
            count == 0
                && has_numbers(shape.get(), subscripts(path.get().as_slice()), sorts)
                && numbers_then_val(sorts)
        }
        _ => takes_row(head, sorts, count),
    }
}

fn takes_row(head: &FormulaHead, sorts: &[Sort], count: usize) -> bool
    ensures { result ≡ takes_row head.now sorts.now count }
{
    match sorts {
        [] => takes_formulas(head, count),
        [a] => count == 0 && takes_one(head, a),
        [a, b] => count == 0 && takes_two(head, a, b),
        _ => false,
    }
}

/// Whether the head takes this number of formulas and no terms.
fn takes_formulas(head: &FormulaHead, count: usize) -> bool
    ensures { result ≡ takes_formulas head.now count }
{
    match head {
        FormulaHead::True => count == 0,
        FormulaHead::False => count == 0,
        FormulaHead::Implies => count == 2,
        FormulaHead::Or => count == 2,
        FormulaHead::And => count == 2,
        FormulaHead::Forall(_, _) => count == 1,
        FormulaHead::Exists(_, _) => count == 1,
        _ => false,
    }
}

fn takes_one(head: &FormulaHead, a: &Sort) -> bool
    ensures { result ≡ takes_one head.now a.now }
{
    match head {
        FormulaHead::IsPtr => a.is_val(),
        FormulaHead::Defined => a.is_val(),
        FormulaHead::FuncPtr(_) => a.is_val(),
        _ => false,
    }
}

fn takes_two(head: &FormulaHead, a: &Sort, b: &Sort) -> bool
    ensures { result ≡ takes_two head.now a.now b.now }
{
    match head {
        FormulaHead::Equal => a.matches(b),
        FormulaHead::AtMost => a.is_z() && b.is_z(),
        _ => false,
    }
}

/// Whether there is a sort for each array of the shape, for each of the others and for a value.
fn has_numbers(shape: &Shape, others: usize, sorts: &[Sort]) -> bool
    ensures { result ≡ nat_eq (length sorts.now) (arrays shape.now + others + 1) }
{
    sorts.len() > others && has_arrays(shape, sorts.len() - others - 1)
}

/// How many of the steps are subscripts.
fn subscripts(steps: &[StepShape]) -> usize
    ensures { result ≡ subscripts steps.now }
{
    let mut count = 0;
    'steps: for step in steps {
        match step {
            StepShape::Subscript => count += 1,
            StepShape::Field(_) => {}
        }
    }
    count
}

/// Whether the last sort is that of values and the others are that of numbers.
fn numbers_then_val(sorts: &[Sort]) -> bool
    ensures { result ≡ numbers_then_val sorts.now }
{
    let last = sorts.len();
    'sorts: for (i, sort) in sorts.iter().enumerate() {
        if i + 1 == last {
            return sort.is_val();
        }
        if !sort.is_z() {
            return false;
        }
    }
    false
}
