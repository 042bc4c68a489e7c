//! A table whose trees are one leaf of one entry in one row: a small layer above the table, which stands on its contracts
//! alone.

mod leaf;
mod walker;

use self::leaf::{OneLeaf, SLOTS, entry_of};
use self::walker::{Found, Inside, Walker};
use maple_node::Layout;
use mm_types::NoMemory;
use node_slots::NodeTable;
use std::alloc::Global;
use std::process::Abort;

/// How many rows the table has.
const ROWS: u32 = 8;

/// A snapshot keeps its words while three trees are published, and once the reader has closed, two scans free all rows but
/// that of the present tree.
#[test]
fn a_snapshot_stays_until_its_reader_closes(rt: HostRuntime) -> Result<(), NoMemory> {
    let (mut writer, mut inside) = first_snapshot(&rt, rt.alloc())?;
    let found = inside.read();
    let before = writer.free_rows();
    assert_eq!(rt; before, ROWS - 1);
    for tree in 2..5 {
        assert_eq!(rt; writer.publish(), Some(tree));
    }
    assert_eq!(rt; inside.read(), found);
    assert_eq!(rt; writer.free_rows(), before - 3);
    inside.leave();
    writer.scan();
    writer.scan();
    assert_eq!(rt; writer.free_rows(), before);
    Ok(())
}

/// A table with a reader whose snapshot is tree 1. All other rows are free.
fn first_snapshot<R: Abort>(rt: &R, alloc: Global) -> Result<(OneLeaf, Inside), NoMemory> {
    let Some((mut writer, walker)) = open(alloc)? else {
        panic!(rt; "there is no reader")
    };
    assert_eq!(rt; writer.publish(), Some(1));
    assert_eq!(rt; writer.scan(), 1);
    let mut inside = walker.enter();
    let Found { root, words } = inside.read();
    assert_eq!(rt; root.tree, 1);
    assert_eq!(rt; Layout::<16>::leaf_at(&words, 0), Some(entry_of(1)));
    assert_eq!(rt; Layout::<16>::leaf_at(&words, 1), None);
    Ok((writer, inside))
}

/// The writer of a new table, and its one reader.
fn open(alloc: Global) -> Result<Option<(OneLeaf, Walker)>, NoMemory> {
    let (table, writer, mut seats) = NodeTable::new(alloc, ROWS, SLOTS, 1)?;
    let Some(walker) = Walker::take(&writer, &mut seats)? else {
        return Ok(None);
    };
    Ok(Some((OneLeaf::new(table, writer), walker)))
}
