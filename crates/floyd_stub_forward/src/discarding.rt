use floyd_stub_goal::Run;

/// The end of a goal that is not needed any more. A function of its own, so that only here its parts are taken away.
pub fn discard(_run: Run) {}
