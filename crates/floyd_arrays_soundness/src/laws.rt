ghost use Rattle.floyd_arrays.specs.JoinArray as join;
ghost use Rattle.floyd_arrays.specs.SplitArray as split;
ghost use Rattle.floyd_arrays_soundness.specs.Pieces as pieces;
ghost use Rattle.floyd_entail_soundness.specs.Rows.{IsSound, IsSoundWhere};
ghost use Rattle.floyd_shares_soundness.specs.Numbers.{IsOfNumber};

/// Where an array may stand, its first elements and the others may stand as arrays, and two arrays, one behind the other,
/// may stand as one.
pub fn pieces_of_arrays()
    ensures cut { pieces.PiecesMayStand }
    ensures uncut { pieces.WholesMayStand }
{}

/// A goal holds where it does with an array in two pieces, and the number of elements of the first is within bounds.
pub fn split_array_is_sound()
    ensures { IsSoundWhere IsOfNumber split.Row }
{}

/// A goal holds where it does with two arrays in one.
pub fn join_array_is_sound()
    ensures { IsSound join.Row }
{}
