ghost use Rattle.floyd_arrays_structs.specs.JoinStruct as join;
ghost use Rattle.floyd_arrays_structs.specs.SplitStruct as split;
ghost use Rattle.floyd_formed_entail.specs.Rows.{KeepsFormsWhere};
ghost use Rattle.floyd_structs_soundness.specs.Fields.{IsOfStructs};

/// The goal with a struct in its fields and its padding is well formed.
pub fn split_struct_keeps_forms()
    ensures { KeepsFormsWhere (λ defs goal args. Unit {0}) split.Row }
{}

/// The goal with all fields of a struct, and its padding, in one is well formed, if no struct has two fields of one name.
pub fn join_struct_keeps_forms()
    ensures { KeepsFormsWhere IsOfStructs join.Row }
{}
