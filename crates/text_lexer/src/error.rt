//! Why an input, or a part of a line, was not read.

ghost use Rattle.std.specs.Prelude.{◌≡◌};
ghost use Rattle.text_lexer.specs.Reading.{error_at};

use mm_types::NoMemory;
use std::alloc::{AllocError, AllocFailed};
use thiserror::Error;

/// Why a line is bad. Where a line of a trace fails several tests, the first of these decides: it is too long; it has no end; it
/// is not UTF-8; line 1 is not the header; a first word with a first digit is no thread; another first word may not stand there;
/// the second word is missing, or may not stand there; there are too few words or too many; the words from the left, and LINE last;
/// NEW against the flags; the line that is named; the child; a descriptor for the second time; too many lines.
#[derive(Clone, Copy, Debug, PartialEq, Eq)]
pub enum Cause {
    /// The first line is not the header of its format, there is no line, or a script names no core.
    Header,
    /// The line has more bytes than its format allows (4,096; 8,192 in a maps text), or its newline would be past byte 67,108,864.
    /// Of a text that `check` judges: it has more than 268,435,456 bytes.
    TooLong,
    /// A word is none of those that may stand there. `limit`, `top`, `min`, `heap` and `file` may not stand after a line with
    /// a thread, and the first four not for the second time.
    Word,
    /// A number, a descriptor or a device number has another form, or is out of its range.
    Number,
    /// A text of flags has an unknown name, or a name twice.
    Flag,
    /// There are too few words or too many, or an mremap(2) has a new address without `MREMAP_FIXED`, or the reverse.
    Arity,
    /// The first word begins with a digit and is no thread from 0 to 63.
    Thread,
    /// It is the 1,000,001st line with a thread, the 1,025th file, the 65th `maps`, the 1,001st line that names a line, or the
    /// ninth fork. Of a script: it is line 10,001.
    TooMany,
    /// A file has the descriptor of one before it.
    FileTwice,
    /// The line is not UTF-8.
    Utf8,
    /// No newline ends the line.
    NoEnd,
    /// The line that `after=` names is no call above it, of another thread of the same address space.
    After,
    /// A child is the thread that forks it, or stands above, as a thread or as a child; or the thread that forks is a child.
    /// In `check`: the line forks.
    Child,
    /// A line of a maps text has another form.
    MapsLine,
    /// An area of a maps text is empty, or begins below the end of the one before it.
    MapsOrder,
    /// A line of a maps text is none that a trace could leave.
    NotOurs,
}

impl Cause {
    ghost use Rattle.std.specs.Prelude.{◌≡◌};
    ghost use Rattle.text_lexer.specs.Causes.{cause_number, cause_name};

    /// The number of the cause, from 1 to 17. None has the number 12.
    pub fn number(self) -> u8
        ensures { result ≡ cause_number self }
    {
        match self {
            Cause::Header => 1,
            Cause::TooLong => 2,
            Cause::Word => 3,
            Cause::Number => 4,
            Cause::Flag => 5,
            Cause::Arity => 6,
            Cause::Thread => 7,
            Cause::TooMany => 8,
            Cause::FileTwice => 9,
            Cause::Utf8 => 10,
            Cause::NoEnd => 11,
            Cause::After => 13,
            Cause::Child => 14,
            Cause::MapsLine => 15,
            Cause::MapsOrder => 16,
            Cause::NotOurs => 17,
        }
    }

    /// The name of the cause, as `FileTwice`.
    pub fn name(self) -> &'static str
        ensures { result.now ≡ cause_name self }
    {
        match self {
            Cause::Header => "Header",
            Cause::TooLong => "TooLong",
            Cause::Word => "Word",
            Cause::Number => "Number",
            Cause::Flag => "Flag",
            Cause::Arity => "Arity",
            Cause::Thread => "Thread",
            Cause::TooMany => "TooMany",
            Cause::FileTwice => "FileTwice",
            Cause::Utf8 => "Utf8",
            Cause::NoEnd => "NoEnd",
            Cause::After => "After",
            Cause::Child => "Child",
            Cause::MapsLine => "MapsLine",
            Cause::MapsOrder => "MapsOrder",
            Cause::NotOurs => "NotOurs",
        }
    }
}

/// The first bad line of a trace or another file, counted from 1, and why it is bad.
#[derive(Clone, Copy, Debug, PartialEq, Eq)]
pub struct BadLine {
    pub line: u64,
    pub cause: Cause,
}

/// Why the text of a call, or another part of a line, was not read.
#[derive(Clone, Copy, Debug, PartialEq, Eq, Error)]
pub enum CallError {
    /// The text is bad.
    #[error("{}", .0.name())]
    Bad(Cause),
    /// Out of memory.
    #[error("no memory")]
    NoMemory,
}

/// Why an input was not read.
#[derive(Clone, Copy, Debug, PartialEq, Eq, Error)]
pub enum ReadError {
    /// A line is bad.
    #[error("line {}: {}", .0.line, .0.cause.name())]
    Bad(BadLine),
    /// Out of memory.
    #[error("no memory")]
    NoMemory,
}

impl From<AllocError> for CallError {
    ghost use Rattle.std.specs.Prelude.{◌≡◌};
    ghost use Rattle.text_lexer.specs.declared.error.CallError.TheVariants as errors;

    ghost from_gives = { λ _ error. error ≡ errors.NoMemory };

    fn from(_error: AllocError) -> CallError {
        CallError::NoMemory
    }
}

impl<T: Drop> From<AllocFailed<T>> for CallError {
    ghost use Rattle.std.specs.Prelude.{◌≡◌};
    ghost use Rattle.text_lexer.specs.declared.error.CallError.TheVariants as errors;

    ghost from_gives = { λ _ error. error ≡ errors.NoMemory };

    fn from(_error: AllocFailed<T>) -> CallError {
        CallError::NoMemory
    }
}

impl From<Cause> for CallError {
    ghost use Rattle.std.specs.Prelude.{◌≡◌};
    ghost use Rattle.text_lexer.specs.declared.error.CallError.TheVariants as errors;

    ghost from_gives = { λ cause error. error ≡ errors.Bad cause };

    fn from(cause: Cause) -> CallError {
        CallError::Bad(cause)
    }
}

impl From<NoMemory> for CallError {
    ghost use Rattle.std.specs.Prelude.{◌≡◌};
    ghost use Rattle.text_lexer.specs.declared.error.CallError.TheVariants as errors;

    ghost from_gives = { λ _ error. error ≡ errors.NoMemory };

    fn from(_error: NoMemory) -> CallError {
        CallError::NoMemory
    }
}

impl From<NoMemory> for ReadError {
    ghost use Rattle.std.specs.Prelude.{◌≡◌};
    ghost use Rattle.text_lexer.specs.declared.error.ReadError.TheVariants as errors;

    ghost from_gives = { λ _ error. error ≡ errors.NoMemory };

    fn from(_error: NoMemory) -> ReadError {
        ReadError::NoMemory
    }
}

/// What is wrong with an input whose line of this number is bad for this cause, or was not read for want of memory.
pub fn error_at(line: u64, error: CallError) -> ReadError
    ensures { result ≡ error_at line error }
{
    match error {
        CallError::Bad(cause) => ReadError::Bad(BadLine { line, cause }),
        CallError::NoMemory => ReadError::NoMemory,
    }
}
