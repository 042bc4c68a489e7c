ghost use Rattle.std.specs.Prelude.{◌≡◌};

use mm_types::{Access, Call, Config, Page};
use std::marker::Model;

/// What a line of a trace asks for.
#[derive(Clone, Copy, Debug, PartialEq, Eq)]
pub enum Op {
    Call(Call),
    Fault { page: Page, access: Access },
    Maps,
    /// A child space, which begins with what its parent has then (fork(2)). `child` is the number of its one thread.
    Fork { child: u32 },
}

/// A line of a trace: its number, counted from 1, its thread, what it asks for, and the number of the line that it comes after,
/// where it names one.
#[derive(Clone, Copy, Debug, PartialEq, Eq)]
pub struct TraceLine {
    pub number: u64,
    pub thread: u32,
    pub op: Op,
    pub after: Option<u64>,
}

/// A trace: the configuration that it names, with its files, and its lines with a thread in their order.
#[derive(Debug, Drop)]
pub struct Trace {
    pub config: Config,
    pub lines: Lines,
}

/// The lines of a trace with a thread, seen by contracts as a list of trace lines.
#[derive(Debug, Drop)]
pub struct Lines {
    items: Vec<TraceLine>,
}

impl Model for Lines {
    ghost use Rattle.std.specs.Prelude.{List};
    ghost use Rattle.trace_reader.specs.declared.trace.TraceLine.{TraceLine};

    ghost Value = { List TraceLine };

    ghost view = { λ l. l.items.items };
}

impl Lines {
    /// Owns the lines, in this order.
    pub fn of(items: Vec<TraceLine>) -> Lines
        ensures { result ≡ items.items }
    {
        Lines { items }
    }

    /// Shows the lines.
    pub fn items(&self) -> &[TraceLine]
        ensures { result.now ≡ self.now }
    {
        self.items.as_slice()
    }
}
