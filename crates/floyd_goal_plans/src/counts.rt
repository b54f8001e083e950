ghost use Rattle.std.specs.Prelude.{◌≡◌};
ghost use Rattle.std.specs.Option.{option_copied};
ghost use Rattle.floyd_goal_plans.specs.Counts.{count_of as count_of_lem, is_array as is_array_lem};

use floyd_tree::{AType, Shape, Term};

#[tactic(auto, using(crate::proofs::CountLemmas::pointer_is_no_array, crate::proofs::CountLemmas::array_is_array, crate::proofs::CountLemmas::function_is_no_array))]
fn is_array(shape: &Shape) -> bool
    ensures { result ≡ is_array_lem shape.now }
{
    match shape {
        Shape::Array(_) => true,
        Shape::Void => false,
        Shape::Int(_) => false,
        Shape::Pointer(_) => false,
        Shape::Struct(_) => false,
        Shape::Function(_, _) => false,
    }
}

/// The number of elements, of an array.
pub fn count_of(t: &AType) -> Option<&Term>
    ensures { option_copied result ≡ count_of_lem t.now }
{
    if is_array(t.shape().get()) {
        t.sizes().get(0)
    } else {
        None
    }
}
