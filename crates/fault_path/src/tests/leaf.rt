//! A tree that is one leaf.
ghost use Rattle.std.specs.Prelude.{◌≡◌, ◌<◌};
ghost use Rattle.node_slots.specs.Seats.{WritesNodeTable, writer_state};
ghost use Rattle.fault_path.specs.Internal.Leaves.{IsTreeOfOneLeaf};

use maple_node::Layout;
use mm_types::{Page, Row, Slot};
use node_slots::{NodeTable, NodeWriter};

/// Publishes a tree that pairs each page below an end with slot 0, in place of tree 0. None where no row is free.
pub(super) fn publish_leaf(table: &NodeTable, writer: &mut NodeWriter, end: Page) -> Option<Row>
    requires table { WritesNodeTable writer.old table.now }
    requires alone { IsTreeOfOneLeaf writer.old 0 }
    requires number { (writer_state writer.old).tree.number ≡ 0 }
    requires end { 0 < end.0 }
{
    let row = table.take_row(writer)?;
    let words = Layout::<16>::leaf_words(&[(end.0, Some(Slot(0)))]);
    table.fill(writer, row, &words);
    table.leave(writer, Row(0));
    table.publish(writer, row, 1);
    Some(row)
}
