//! The writer of trees that are one leaf of one entry in one row.
ghost use Rattle.std.specs.Prelude.{◌≡◌, ◌<◌, ◌≤◌, []};
ghost use Rattle.maple_node.specs.Words.{slot_word};
ghost use Rattle.node_slots.specs.Opening.{IsFreeFrom};
ghost use Rattle.node_slots.specs.Seats.{WritesNodeTable, node_sight, writer_state, free_of, retired_rows, row_count};
ghost use Rattle.tree_tests.specs.Leaves.{IsOneLeaf};

use maple_node::Layout;
use mm_types::{Page, Row, Slot};
use node_slots::{NodeTable, NodeWriter};

/// The number of slots.
pub(super) const SLOTS: u32 = 4;

/// Trees are published with numbers up to this one.
const LAST: u64 = (1 << 40) - 1;

/// The entry of the tree of this number: it ends at the page of the number, and has a slot that the number tells.
pub(super) fn entry_of(tree: u64) -> (u64, Option<Slot>)
    ensures end { result.0 ≡ tree }
    ensures slot { slot_word result.1 ≤ 4 }
{
    (tree, Some(Slot((tree % u64::from(SLOTS)) as u32)))
}

/// The writer of a table whose present tree has one row.
#[derive(Drop)]
pub(super) struct OneLeaf {
    table: NodeTable,
    writer: NodeWriter,
    row: Row,
    /// The number of the present tree.
    tree: u64,
    ghost kept: { WritesNodeTable writer table × IsOneLeaf writer row.0 },
    ghost number: { (writer_state writer).tree.number ≡ tree },
}

impl OneLeaf {
    /// The writer of a new table.
    pub(super) fn new(table: NodeTable, writer: NodeWriter) -> OneLeaf
        requires table { WritesNodeTable writer table }
        requires rows { row_count writer ≡ 8 }
        requires free { IsFreeFrom 1 8 (free_of writer) }
        requires left { retired_rows writer ≡ [] }
        requires slots { (node_sight writer).size.slots ≡ 4 }
        requires number { (writer_state writer).tree.number ≡ 0 }
    {
        OneLeaf {
            table,
            writer,
            row: Row(0),
            tree: 0,
        }
    }

    /// Publishes the next tree with the entry of its number.
    pub(super) fn publish(&mut self) -> Option<u64> {
        let (end, slot) = entry_of(self.tree.saturating_add(1));
        self.publish_entry(Page(end), slot)
    }

    /// Publishes the next tree in a row of its own, with one entry that ends at a page, and answers its number. None where no row is
    /// free.
    fn publish_entry(&mut self, end: Page, slot: Option<Slot>) -> Option<u64>
        requires end { 0 < end.0 }
        requires slot { slot_word slot ≤ 4 }
    {
        if self.tree >= LAST {
            return None;
        }
        let tree = self.tree + 1;
        let row = self.table.take_row(&mut self.writer)?;
        let words = Layout::<16>::leaf_words(&[(end.0, slot)]);
        self.table.fill(&mut self.writer, row, &words);
        self.table.leave(&mut self.writer, self.row);
        self.table.publish(&mut self.writer, row, 1);
        self.row = row;
        self.tree = tree;
        Some(tree)
    }

    /// Scans, and answers how many rows became free.
    pub(super) fn scan(&mut self) -> u32 {
        self.table.scan(&mut self.writer)
    }

    /// How many rows are free.
    pub(super) fn free_rows(&self) -> u32 {
        self.table.free_rows(&self.writer)
    }
}
