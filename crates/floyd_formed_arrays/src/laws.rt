ghost use Rattle.floyd_arrays.specs.JoinArray as join;
ghost use Rattle.floyd_arrays.specs.SplitArray as split;
ghost use Rattle.floyd_formed_entail.specs.Rows.{KeepsFormsWhere};
ghost use Rattle.floyd_shares_soundness.specs.Numbers.{IsOfNumber};

/// The bounds of the number of elements, and the goal with the array in two pieces, are well formed.
pub fn split_array_keeps_forms()
    ensures { KeepsFormsWhere IsOfNumber split.Row }
{}

/// The goal with two arrays in one is well formed.
pub fn join_array_keeps_forms()
    ensures { KeepsFormsWhere (λ defs goal args. Unit {0}) join.Row }
{}
