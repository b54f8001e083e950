ghost use Rattle.std.specs.Option.{unwrap_or};
ghost use Rattle.std.specs.Prelude.{◌∷◌, ◌≡◌, ◌≤◌, length, take};
ghost use Rattle.floyd_assert.specs.AroundClauses.{binders, inside};
ghost use Rattle.floyd_truth.specs.Same.{Binders, below, same_variable};

use floyd_assert_trees::Binder;
use floyd_text::Name;
use floyd_tree::FormulaHead;

/// The binders around two formulas, each with its name in the one and in the other.
#[derive(Clone, Copy)]
pub enum Around<'a> {
    Nothing,
    /// The innermost binder, and those around it.
    Under(&'a Name, &'a Name, &'a Around<'a>),
    /// Two lists of binders as far as both go, the outermost first, and those around them.
    Lists(&'a [Binder], &'a [Binder], &'a Around<'a>),
}

/// Whether x in the one formula is y in the other: both are bound by the same binder, or both are free and the same.
pub fn same_variable(around: &Around, x: &Name, y: &Name) -> bool
    ensures { result ≡ same_variable (binders around.now) x.now y.now }
{
    match around {
        Around::Nothing => x == y,
        Around::Under(left, right, outer) => match bound_here(left, right, x, y) {
            Some(same) => same,
            None => same_variable(outer, x, y),
        },
        Around::Lists(left, right, outer) => match bound_in_lists(left, right, x, y) {
            Some(same) => same,
            None => same_variable(outer, x, y),
        },
    }
}

/// What a binder says of x and y: nothing where it binds neither.
fn bound_here(left: &Name, right: &Name, x: &Name, y: &Name) -> Option<bool>
    ensures { (outer : Binders) → same_variable ((left.now, right.now) ∷ outer) x.now y.now ≡ unwrap_or result (same_variable outer x.now y.now) }
{
    let first = x == left;
    let second = y == right;
    if first || second {
        Some(first && second)
    } else {
        None
    }
}

/// The length of the shorter list.
fn shorter(left: &[Binder], right: &[Binder]) -> usize
    ensures left { result ≤ length left.now }
    ensures right { result ≤ length right.now }
    ensures all { (outer : Binders) → inside (take result left.now) (take result right.now) outer ≡ inside left.now right.now outer }
{
    if left.len() < right.len() {
        left.len()
    } else {
        right.len()
    }
}

/// What two lists of binders say of x and y: nothing where they bind neither.
fn bound_in_lists(left: &[Binder], right: &[Binder], x: &Name, y: &Name) -> Option<bool>
    ensures { (outer : Binders) → same_variable (inside left.now right.now outer) x.now y.now ≡ unwrap_or result (same_variable outer x.now y.now) }
{
    let count = shorter(left, right);
    'binders: for i in (0..count).rev() {
        if let Some(same) = bound_here(&left[i].name, &right[i].name, x, y) {
            return Some(same);
        }
    }
    None
}

/// The binders around what stands below these heads.
pub fn below<'a>(a: &'a FormulaHead, b: &'a FormulaHead, around: &'a Around<'a>) -> Around<'a>
    ensures { binders result ≡ below a.now b.now (binders around.now) }
{
    match a {
        FormulaHead::Forall(x, _) => match b {
            FormulaHead::Forall(y, _) => Around::Under(x, y, around),
            _ => *around,
        },
        FormulaHead::Exists(x, _) => match b {
            FormulaHead::Exists(y, _) => Around::Under(x, y, around),
            _ => *around,
        },
        _ => *around,
    }
}
