ghost use Rattle.floyd_arrays_structs.specs.JoinStruct as join;
ghost use Rattle.floyd_arrays_structs.specs.SplitStruct as split;
ghost use Rattle.floyd_entail_soundness.specs.Rows.{IsSoundWhere};
ghost use Rattle.floyd_structs_soundness.specs.Fields.{IsOfStructs};

/// A goal holds where it does with a struct in its fields and its padding, if no struct has two fields of one name.
pub fn split_struct_is_sound()
    ensures { IsSoundWhere IsOfStructs split.Row }
{}

/// A goal holds where it does with all fields of a struct, and its padding, in one, if no struct has two fields of one name.
pub fn join_struct_is_sound()
    ensures { IsSoundWhere IsOfStructs join.Row }
{}
