ghost use Rattle.floyd_links.specs.Examples as examples;
ghost use Rattle.floyd_links.specs.Laws as laws;

/// A linked program has what the proofs of each of its modules stand on, if each function with a body has a specification of
/// its own.
pub fn links_have()
    ensures { laws.LinksHave }
{}

/// No FUN and no PRED of a linked program speaks of a local variable of a function.
pub fn links_are_bare()
    ensures { laws.LinksAreBare }
{}

/// Some program is linked: one of `main` alone, which returns 0.
pub fn a_program_links()
    ensures { examples.AProgramLinks }
{}
