ghost use Rattle.std.specs.Prelude.{◌≡◌};
ghost use Rattle.live_session.specs.Statuses.{session_status_line, session_status_number};
ghost use Rattle.live_session.specs.declared.status.Status.TheVariants.{NoMemory as no_memory};

use mm_types::NoMemory;
use output::PrintError;
use std::alloc::AllocError;

/// What a session ends with.
#[derive(Clone, Copy, Debug, PartialEq, Eq)]
pub enum Status {
    /// The input ended, and all answers were given.
    Done,
    /// There were as many lines and reads as 64 bits count.
    TooMany,
    /// The source failed.
    ReadFault,
    /// The sink failed.
    WriteFault,
    /// Memory ran out.
    NoMemory,
}

impl From<NoMemory> for Status {
    ghost from_gives = { λ _ status. status ≡ no_memory };

    fn from(_error: NoMemory) -> Status {
        Status::NoMemory
    }
}

impl From<AllocError> for Status {
    ghost from_gives = { λ _ status. status ≡ no_memory };

    fn from(_error: AllocError) -> Status {
        Status::NoMemory
    }
}

impl From<PrintError> for Status {
    ghost use Rattle.std.specs.Prelude.{◌≡◌};
    ghost use Rattle.live_session.specs.Statuses.{session_status_of_print};

    ghost from_gives = { λ error status. status ≡ session_status_of_print error };

    fn from(error: PrintError) -> Status {
        match error {
            PrintError::WriteFault => Status::WriteFault,
            PrintError::NoMemory => Status::NoMemory,
        }
    }
}

/// The exit status of the program: 0 where the session is done, and 3 to 6 else.
pub fn status_number(status: Status) -> u8
    ensures { result ≡ session_status_number status }
{
    match status {
        Status::Done => 0,
        Status::TooMany => 3,
        Status::ReadFault => 4,
        Status::WriteFault => 5,
        Status::NoMemory => 6,
    }
}

/// The line for standard error, without its newline: empty where the session is done, else as `read fault`.
pub fn status_line(status: Status) -> &'static str
    ensures { result.now ≡ session_status_line status }
{
    match status {
        Status::Done => "",
        Status::TooMany => "too many lines",
        Status::ReadFault => "read fault",
        Status::WriteFault => "write fault",
        Status::NoMemory => "no memory",
    }
}
