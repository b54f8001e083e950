ghost use Rattle.floyd_arrays.specs.JoinArray as join_array;
ghost use Rattle.floyd_arrays.specs.SplitArray as split_array;
ghost use Rattle.floyd_arrays_structs.specs.JoinStruct as join_struct;
ghost use Rattle.floyd_arrays_structs.specs.SplitStruct as split_struct;
ghost use Rattle.floyd_entail.specs.Exists as exists;
ghost use Rattle.floyd_entail.specs.Facts as facts;
ghost use Rattle.floyd_entail.specs.Intros as intros;
ghost use Rattle.floyd_entail.specs.Reroot as reroot;
ghost use Rattle.floyd_entail.specs.Valid as valid;
ghost use Rattle.floyd_entail.specs.Weaken as weaken;
ghost use Rattle.floyd_entail_soundness.specs.Rows.{CancelRow, IsWitness};
ghost use Rattle.floyd_pure_formulas.specs.Cut.{CutRow};
ghost use Rattle.floyd_pure_formulas.specs.Destruct.{DestructRow};
ghost use Rattle.floyd_pure_formulas.specs.Discriminate.{DiscriminateRow};
ghost use Rattle.floyd_pure_formulas.specs.LeftRight.{LeftRow, RightRow};
ghost use Rattle.floyd_pure_formulas.specs.Mp.{MpRow};
ghost use Rattle.floyd_pure_formulas.specs.Refl.{ReflRow};
ghost use Rattle.floyd_pure_formulas.specs.Trivial.{TrivialRow};
ghost use Rattle.floyd_pure_laws.specs.ByLaw.{LawRow};
ghost use Rattle.floyd_pure_laws.specs.Lia.{LiaRow};
ghost use Rattle.floyd_pure_quantifiers.specs.Exists.{ExistsRow};
ghost use Rattle.floyd_pure_quantifiers.specs.Inject.{InjectRow};
ghost use Rattle.floyd_pure_quantifiers.specs.Intro.{IntroRow};
ghost use Rattle.floyd_pure_quantifiers.specs.Specialize.{SpecializeRow};
ghost use Rattle.floyd_pure_quantifiers.specs.Split.{SplitRow};
ghost use Rattle.floyd_pure_rewriting.specs.Rewrite.{RewriteRow};
ghost use Rattle.floyd_pure_simplifying.specs.Simpl.{SimplRow};
ghost use Rattle.floyd_row_laws.specs.Laws.{HasLaws, Nothing};
ghost use Rattle.floyd_shares.specs.JoinShare as join_share;
ghost use Rattle.floyd_shares.specs.SplitShare as split_share;
ghost use Rattle.floyd_shares_soundness.specs.Numbers.{IsOfNumber};
ghost use Rattle.floyd_structs_soundness.specs.Fields.{IsOfStructs};

/// Commands on what a Pure goal asks for.
pub fn rows_on_formulas()
    ensures refl { HasLaws Nothing (λ defs. ReflRow) }
    ensures trivial { HasLaws Nothing (λ defs. TrivialRow) }
    ensures intro { HasLaws Nothing (λ defs. IntroRow) }
    ensures left { HasLaws Nothing (λ defs. LeftRow) }
    ensures right { HasLaws Nothing (λ defs. RightRow) }
    ensures split { HasLaws Nothing (λ defs. SplitRow) }
    ensures exists { HasLaws Nothing (λ defs. ExistsRow) }
    ensures lia { HasLaws Nothing (λ defs. LiaRow) }
{}

/// Commands that use hypotheses, and change the terms of a goal.
pub fn rows_on_hypotheses()
    ensures cut { HasLaws Nothing (λ defs. CutRow) }
    ensures mp { HasLaws Nothing (λ defs. MpRow) }
    ensures law { HasLaws Nothing (λ defs. LawRow) }
    ensures specialize { HasLaws Nothing (λ defs. SpecializeRow) }
    ensures inject { HasLaws Nothing (λ defs. InjectRow) }
    ensures discriminate { HasLaws Nothing (λ defs. DiscriminateRow) }
    ensures destruct { HasLaws Nothing (λ defs. DestructRow) }
    ensures rewrite { HasLaws Nothing (λ defs. RewriteRow) }
    ensures simpl { HasLaws Nothing (λ defs. SimplRow) }
{}

/// Commands on the assertions of a goal.
pub fn rows_on_assertions()
    ensures intros { HasLaws Nothing (λ defs. intros.Row) }
    ensures exists { HasLaws IsWitness (λ defs. exists.Row) }
    ensures cancel { HasLaws Nothing (λ defs. CancelRow) }
    ensures weaken { HasLaws Nothing (λ defs. weaken.Row defs.structs) }
    ensures facts { HasLaws Nothing (λ defs. facts.Row defs.structs) }
    ensures valid { HasLaws Nothing (λ defs. valid.Row defs.structs) }
    ensures reroot { HasLaws Nothing (λ defs. reroot.Row defs.structs) }
{}

/// Commands that cut parts of memory and join them.
pub fn rows_on_memory()
    ensures split_array { HasLaws IsOfNumber (λ defs. split_array.Row defs.structs) }
    ensures join_array { HasLaws Nothing (λ defs. join_array.Row defs.structs) }
    ensures split_struct { HasLaws IsOfStructs (λ defs. split_struct.Row defs.structs) }
    ensures join_struct { HasLaws IsOfStructs (λ defs. join_struct.Row defs.structs) }
    ensures split_share { HasLaws IsOfNumber (λ defs. split_share.Row) }
    ensures join_share { HasLaws Nothing (λ defs. join_share.Row) }
{}
