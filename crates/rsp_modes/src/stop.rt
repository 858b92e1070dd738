// Why something isn't worked off to its end.
ghost use Rattle.std.specs.Prelude.{◌≡◌};
ghost use Rattle.rsp_modes.specs.Stops.{status_of};

use crate::status::Status;

/// Why the work stopped.
#[derive(Clone, Copy)]
pub(crate) enum Stop {
    /// Memory was refused.
    Memory,
    /// A write failed.
    Write,
}

/// How the work ended, as a status; where it didn't stop, by whether something was refused.
pub(crate) fn status_of(worked: Result<bool, Stop>) -> Status
    ensures { result ≡ status_of worked }
{
    match worked {
        Ok(false) => Status::Done,
        Ok(true) => Status::DoneWithRefusals,
        Err(Stop::Memory) => Status::OutOfMemory,
        Err(Stop::Write) => Status::WriteFault,
    }
}
