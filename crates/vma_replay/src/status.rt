ghost use Rattle.std.specs.Prelude.{◌≡◌, ◌++◌, IfOk, IsOk, codes, decimal, string_bytes};
ghost use Rattle.vma_replay.specs.Statuses.{number_of_status, line_of_status};
ghost use Rattle.vma_replay.specs.declared.status.Status.TheVariants.{NoMemory as no_memory};

use mm_types::{NoMemory, Text};
use output::PrintError;
use std::alloc::{AllocError, Global};
use text_lexer::{Cause, ReadError};

/// What a run results in.
#[derive(Clone, Copy, Debug, PartialEq, Eq)]
pub enum Status {
    /// The whole input was read, and the whole output given.
    Done,
    /// The words are none of the accepted lists.
    Words,
    /// The input is no trace, in `steps` no script, in `query` and `retrace` no maps text that they take, and in `check` no trace with a text
    /// behind it: the first bad line, counted from 1, and its cause.
    Trace { line: u64, cause: Cause },
    /// The source failed.
    ReadFault,
    /// The sink failed.
    WriteFault,
    /// Memory ran out.
    NoMemory,
}

impl From<NoMemory> for Status {
    ghost from_gives = { λ _ status. status ≡ no_memory };

    fn from(_error: NoMemory) -> Status {
        Status::NoMemory
    }
}

impl From<AllocError> for Status {
    ghost from_gives = { λ _ status. status ≡ no_memory };

    fn from(_error: AllocError) -> Status {
        Status::NoMemory
    }
}

impl From<PrintError> for Status {
    ghost use Rattle.std.specs.Prelude.{◌≡◌};
    ghost use Rattle.vma_replay.specs.Statuses.{status_of_print};

    ghost from_gives = { λ error status. status ≡ status_of_print error };

    fn from(error: PrintError) -> Status {
        match error {
            PrintError::WriteFault => Status::WriteFault,
            PrintError::NoMemory => Status::NoMemory,
        }
    }
}

impl From<ReadError> for Status {
    ghost use Rattle.std.specs.Prelude.{◌≡◌};
    ghost use Rattle.vma_replay.specs.Internal.Reading.{refused_as};

    ghost from_gives = { λ error status. status ≡ refused_as error };

    fn from(error: ReadError) -> Status {
        match error {
            ReadError::Bad(first) => Status::Trace {
                line: first.line,
                cause: first.cause,
            },
            ReadError::NoMemory => Status::NoMemory,
        }
    }
}

/// The exit status of the program: 0 where it is done, and 2 to 6 else.
pub fn status_number(status: &Status) -> u8
    ensures { result ≡ number_of_status status.now }
{
    match status {
        Status::Done => 0,
        Status::Words => 2,
        Status::Trace { .. } => 3,
        Status::ReadFault => 4,
        Status::WriteFault => 5,
        Status::NoMemory => 6,
    }
}

/// The line for standard error, without its newline: empty where the run is done, which takes no memory, else as `read fault` or
/// `trace line 2 cause 11 NoEnd`.
pub fn status_line(alloc: Global, status: &Status) -> Result<Text, NoMemory>
    ensures line { IfOk result (λ line. line ≡ line_of_status status.now) }
    ensures done { status.now ≡ Status.Done → IsOk result }
{
    let line = match *status {
        Status::Done => String::new(alloc),
        Status::Words => String::from_str(alloc, "words")?,
        Status::Trace { line, cause } => trace_line(alloc, line, cause.number(), cause.name())?,
        Status::ReadFault => String::from_str(alloc, "read fault")?,
        Status::WriteFault => String::from_str(alloc, "write fault")?,
        Status::NoMemory => String::from_str(alloc, "no memory")?,
    };
    Ok(Text::of(line))
}

fn trace_line(alloc: Global, line: u64, number: u8, name: &str) -> Result<String, NoMemory>
    ensures { IfOk result (λ text. string_bytes text ≡ codes "trace line "
        ++ (decimal line ++ (codes " cause " ++ (decimal number ++ (codes " " ++ name.now))))) }
{
    Ok(format!(in alloc; "trace line {line} cause {number} {name}")?)
}
