//! What may be wrong with a line of the text.

use std::alloc::{AllocError, AllocFailed};
use std::{fmt, io};

/// What is wrong with a line.
#[derive(Debug, Drop)]
pub enum Fault {
    /// It has none of the forms.
    Form,
    /// It comes before the first row.
    NoRow,
    /// The row above it has no run.
    NoRun,
    /// Before the colon of a run is something else than `read N fails`, `write N fails` or `first N bytes`.
    Setting,
    /// A backslash is not followed by `x` and two hexadecimal digits.
    Byte,
    /// Memory or standard output failed.
    Io(io::Error),
}

impl From<io::Error> for Fault {
    fn from(error: io::Error) -> Fault {
        Fault::Io(error)
    }
}

impl From<AllocError> for Fault {
    fn from(error: AllocError) -> Fault {
        Fault::Io(io::Error::from(error))
    }
}

impl<T: Drop> From<AllocFailed<T>> for Fault {
    fn from(error: AllocFailed<T>) -> Fault {
        Fault::from(AllocError::from(error))
    }
}

impl fmt::Display for Fault {
    fn fmt<W: fmt::Write>(&self, f: &mut fmt::Formatter<W>) -> fmt::Result {
        match self {
            Fault::Form => write!(
                f,
                "no line of the form `row NAME`, `| TEXT`, `+ TEXT`, `run: WORDS` or `with | TEXT`"
            ),
            Fault::NoRow => write!(f, "a text or a run before the first row"),
            Fault::NoRun => write!(f, "the row above has no run"),
            Fault::Setting => write!(
                f,
                "between `run` and its colon is something else than `, read N fails`, `, write N fails` or `, first N bytes`"
            ),
            Fault::Byte => write!(
                f,
                "a backslash without `x` and two hexadecimal digits behind it"
            ),
            Fault::Io(error) => write!(f, "{error}"),
        }
    }
}

/// Where the text was left, and why.
#[derive(Debug, Drop)]
pub struct BadLine {
    /// The line, counted from 1, or 0 where no line was read.
    pub line: u64,
    /// What is wrong with it.
    pub fault: Fault,
}

impl BadLine {
    /// A fault before the first line.
    pub fn before(error: io::Error) -> BadLine {
        BadLine {
            line: 0,
            fault: Fault::Io(error),
        }
    }

    /// The exit status for it.
    pub fn status(&self) -> u8 {
        match self.fault {
            Fault::Io(_) => 1,
            _ => 2,
        }
    }
}

impl fmt::Display for BadLine {
    fn fmt<W: fmt::Write>(&self, f: &mut fmt::Formatter<W>) -> fmt::Result {
        match self.line {
            0 => write!(f, "{}", self.fault),
            line => write!(f, "line {line}: {}", self.fault),
        }
    }
}
