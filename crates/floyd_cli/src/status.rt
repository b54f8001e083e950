ghost use Rattle.std.specs.Prelude.{◌≡◌};

/// How a run ends.
#[derive(Clone, Copy, PartialEq, Eq, Debug)]
pub enum Status {
    /// What was asked for was done, and its text was written whole.
    Done,
    /// What was asked for is refused, and the refusal's line was written whole.
    Refused,
    /// The words are no command line.
    Usage,
    /// A file could not be read, and nothing was written.
    ReadFault,
    /// A write failed, after a front of the text.
    WriteFault,
    /// Memory ran out, and nothing was written.
    NoMemory,
}

impl Status {
    ghost use Rattle.floyd_cli.specs.Causes.{number_of};

    /// The number with which the program ends.
    pub fn number(self) -> u8
        ensures { result ≡ number_of self }
    {
        match self {
            Status::Done => 0,
            Status::Refused => 1,
            Status::Usage => 2,
            Status::ReadFault => 3,
            Status::WriteFault => 4,
            Status::NoMemory => 5,
        }
    }
}
