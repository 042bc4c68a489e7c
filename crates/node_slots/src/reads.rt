//! Counts of the rows that are read for the writer.
ghost use Rattle.std.specs.Prelude.{◌≡◌, ◌+◌};

use crate::seats::NodeWriter;
use mm_types::Steps;
use std::marker::Model;

/// Names what is counted.
struct Rows;

/// How many rows were read. It has no bytes at run time, and contracts see it as the number. Only `NodeTable::written` raises it,
/// nothing lowers it, and it is not copied.
#[derive(Drop)]
pub struct Reads {
    rows: Steps<Rows>,
}

impl Model for Reads {
    ghost use Rattle.std.specs.Prelude.{ℕ};

    ghost Value = { ℕ };

    ghost view = { λ reads. reads.rows };
}

impl Reads {
    /// Counts one row.
    pub(crate) fn add(&mut self)
        ensures { self.new ≡ self.old + 1 }
    {
        self.rows.tick();
    }
}

/// The leave to begin a count, which has no bytes. The first one is had of the writer, by who may change it. So a function that may
/// only look at the writer, and has no such leave, reads on the count that it is handed, and on no other.
#[derive(Clone, Copy)]
pub struct MayCount {
    leave: (),
}

impl MayCount {
    /// A count of no rows.
    pub fn begin(self) -> Reads
        ensures { result ≡ 0 }
    {
        Reads { rows: Steps::new() }
    }
}

impl NodeWriter {
    /// The leave to begin a count.
    pub fn may_count(&mut self) -> MayCount
        ensures { self.new ≡ self.old }
    {
        MayCount { leave: () }
    }
}
