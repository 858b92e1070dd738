// How the program ends.
ghost use Rattle.std.specs.Prelude.{◌≡◌};
ghost use Rattle.rsp_modes.specs.Statuses.{code_of};

/// How a call of `rsp` ended; the program's exit status is its number, from 0 to 6.
#[derive(Clone, Copy, PartialEq, Eq, Debug)]
pub enum Status {
    /// All input was read, all output written, and nothing was refused.
    Done,
    /// The same, but some block was refused, or the query that is checked.
    DoneWithRefusals,
    /// The words are in no row of the table; the usage line was written.
    Usage,
    /// A read failed, or the pick of a file.
    ReadFault,
    /// A write failed.
    WriteFault,
    /// Memory was refused.
    OutOfMemory,
    /// The input is longer than 2^40 bytes, or a file than 67,108,864.
    TooLong,
}

impl Status {
    /// The program's exit status.
    pub fn code(self) -> u8
        ensures { result ≡ code_of self }
    {
        match self {
            Status::Done => 0,
            Status::DoneWithRefusals => 1,
            Status::Usage => 2,
            Status::ReadFault => 3,
            Status::WriteFault => 4,
            Status::OutOfMemory => 5,
            Status::TooLong => 6,
        }
    }
}
