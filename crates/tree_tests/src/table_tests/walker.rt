//! A reader with a handle of its table.
ghost use Rattle.node_slots.specs.Seats.{IsOfNodeTable, IsClosed};
ghost use Rattle.tree_tests.specs.Leaves.{AreBeside, IsInside};

use maple_node::Root;
use mm_types::{NoMemory, Row};
use node_slots::{NodeSeat, NodeTable, NodeWriter};

/// A reader that is closed.
#[derive(Drop)]
pub(super) struct Walker {
    table: NodeTable,
    seat: NodeSeat,
    ghost kept: { IsOfNodeTable seat table × IsClosed seat },
}

/// A reader that is open, with the root that it loaded.
#[derive(Drop)]
pub(super) struct Inside {
    table: NodeTable,
    seat: NodeSeat,
    root: Root,
    ghost kept: { IsInside seat table root.row.0 },
}

/// A tree as a reader finds it: its root, and the words of the root's row.
#[derive(Clone, Copy, Debug, PartialEq, Eq)]
pub(super) struct Found {
    pub(super) root: Root,
    pub(super) words: [u64; 32],
}

impl Walker {
    /// Takes the last of the readers that are left.
    pub(super) fn take(
        writer: &NodeWriter,
        seats: &mut Vec<NodeSeat>,
    ) -> Result<Option<Walker>, NoMemory>
        requires { AreBeside seats.old.items writer.now }
        ensures { AreBeside seats.new.items writer.now }
    {
        let Some(seat) = seats.pop() else {
            return Ok(None);
        };
        let table = writer.table()?;
        Ok(Some(Walker { table, seat }))
    }

    /// Opens, and loads the root.
    pub(super) fn enter(self) -> Inside {
        let Walker { table, mut seat } = self;
        let root = enter(&table, &mut seat);
        Inside { table, seat, root }
    }
}

impl Inside {
    /// Reads the root's row.
    pub(super) fn read(&mut self) -> Found {
        Found {
            root: self.root,
            words: read(&self.table, &mut self.seat, self.root.row),
        }
    }

    /// Closes.
    pub(super) fn leave(self) -> Walker {
        let Inside {
            table,
            mut seat,
            root: _,
        } = self;
        table.close(&mut seat);
        Walker { table, seat }
    }
}

/// Opens a reader, and loads the root.
fn enter(table: &NodeTable, seat: &mut NodeSeat) -> Root
    requires table { IsOfNodeTable seat.old table.now }
    requires closed { IsClosed seat.old }
    ensures { IsInside seat.new table.now result.row.0 }
{
    table.open(seat);
    table.root(seat)
}

/// Reads a row of a reader's snapshot.
fn read(table: &NodeTable, seat: &mut NodeSeat, row: Row) -> [u64; 32]
    requires { IsInside seat.old table.now row.0 }
    ensures { IsInside seat.new table.now row.0 }
{
    let mut words = [0; 32];
    for place in 0..32 {
        words[place as usize] = table.word(seat, row, place);
    }
    words
}
