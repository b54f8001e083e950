ghost use Rattle.floyd_lex.specs.Laws as specs;

/// A file is cut in one way at most: a list of tokens, or a refusal.
pub fn has_one_cut()
    ensures { specs.HasOneCut }
{}

/// The texts of the tokens stand in the bytes in order, with nothing but white space, comments and line markers before,
/// between and behind them.
pub fn texts_stand_in_order()
    ensures { specs.TextsStandInOrder }
{}

/// No token goes beyond its line.
pub fn texts_stand_on_lines()
    ensures { specs.TextsStandOnLines }
{}

/// Keywords and string literals are tokens of sources alone, and the type of a literal holds its value: one of C in a
/// source, and elsewhere 2 ^ 126 - 1 at most.
pub fn tokens_suit()
    ensures { specs.TokensSuit }
{}

/// What the first lines of a file are cut into does not depend on the lines after them, but for an open comment: their
/// tokens and their refusal are those of the whole, and without a refusal the whole goes on where they end.
pub fn lines_stand_alone()
    ensures { specs.LinesStandAlone }
{}
