ghost use Rattle.floyd_clight_typing.specs.Examples as examples;

/// Worked examples: what is typed, and what is not.
pub fn worked_examples()
    ensures { examples.Worked }
{}
