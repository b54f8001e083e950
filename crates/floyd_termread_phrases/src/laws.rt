ghost use Rattle.floyd_termread_phrases.specs.Laws as specs;

/// There is one answer at most: one term with the token behind it, or one refusal; and so of formulas, types and paths.
pub fn has_one_answer()
    ensures { specs.HasOneAnswer }
{}

/// A term is answered exactly where the tokens read as it up to that token.
pub fn term_is_read()
    ensures { specs.TermIsRead }
{}
