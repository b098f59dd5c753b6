//! The status of the program.

ghost use Rattle.std.specs.Prelude.{◌≡◌};
ghost use Rattle.gcsh_top.specs.Statuses.{code_of};

/// How a run of the program ended.
#[derive(Clone, Copy, Debug, PartialEq, Eq)]
pub enum Status {
    /// The input was read to its end, and every line has its reply; or a script that was made was run to its end, and has
    /// its summary.
    Done,
    /// The words are of no form. Nothing was read or written.
    Usage,
    /// The source failed. Every line that it had given whole has its reply.
    ReadFault,
    /// The sink failed.
    WriteFault,
    /// The input has more bytes than `MAX_INPUT`. Every line that is whole within these has its reply.
    TooLong,
    /// There was no memory.
    NoMemory,
}

impl Status {
    /// The number that the system sees.
    pub fn code(self) -> u8
        ensures { result ≡ code_of self }
    {
        match self {
            Status::Done => 0,
            Status::Usage => 1,
            Status::ReadFault => 2,
            Status::WriteFault => 3,
            Status::TooLong => 4,
            Status::NoMemory => 5,
        }
    }
}
