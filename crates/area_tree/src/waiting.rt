//! Waiting for rows that readers may still read.
ghost use Rattle.std.specs.Prelude.{◌≡◌, ◌<◌, ◌≤◌, ◌+◌, ◌*◌, ◌++◌, ◌∷◌, [], ℕ, true, false, List, length, All};
ghost use Rattle.node_slots.specs.Seats.{WritesNodeTable, node_sight, free_of, pins_of, HasOpen};
ghost use Rattle.area_tree.specs.Rows.{Scans, IsScanned, AreHeld, Suffices};

use crate::tally::{Tally, scan_once};
use node_slots::{NodeTable, NodeWriter};
use std::sync::Wait;
use std::thread;

/// Scans until so many rows are free, which waits for readers alone: once none is inside, so many are. Scans no more once they are.
pub(crate) fn wait_for_rows<R: Wait>(
    rt: &R,
    nodes: &NodeTable,
    writer: &mut NodeWriter,
    tally: &mut Tally,
    rows: u32,
)
    requires table { WritesNodeTable writer.old nodes.now }
    requires comes { Suffices writer.old rows }
    ensures table { WritesNodeTable writer.new nodes.now }
    ensures scans { Scans writer.old writer.new }
    ensures free { rows ≤ length (free_of writer.new) }
    // one scan, and one more for each of these tries, before which too few rows were free
    ensures tries { (tries : List ℕ) × (tally.new ≡ tally.old ++ length (free_of writer.old) ∷ tries) × All (λ free. free < rows) tries
        × ((node_sight writer.new).scans ≡ (node_sight writer.old).scans + (length tries + 1) * length (pins_of writer.old)) }
    ensures once { rows ≤ length (free_of writer.old) → IsScanned writer.old writer.new }
{
    // the loop does nothing else: a try that finds too few looks at each pin again, and yields
    for _ in rt.forever() {
        if try_for_rows(nodes, writer, tally, rows) {
            return;
        }
    }
    unreachable!()
}

/// Scans once, and answers whether so many rows are free. Where they are not, it found a reader inside, each row that waits is held
/// by a reader that is not cleared up to the tree which left it out, and another thread may run.
fn try_for_rows(nodes: &NodeTable, writer: &mut NodeWriter, tally: &mut Tally, rows: u32) -> bool
    requires table { WritesNodeTable writer.old nodes.now }
    requires comes { Suffices writer.old rows }
    ensures table { WritesNodeTable writer.new nodes.now }
    ensures scans { Scans writer.old writer.new }
    ensures scanned { IsScanned writer.old writer.new }
    ensures noted { tally.new ≡ tally.old ++ length (free_of writer.old) ∷ [] }
    ensures more { length (free_of writer.old) ≤ length (free_of writer.new) }
    ensures held { AreHeld writer.new }
    ensures free { result ≡ true → rows ≤ length (free_of writer.new) }
    ensures few { result ≡ false → length (free_of writer.new) < rows }
    ensures inside { result ≡ false → HasOpen (pins_of writer.new) }
{
    let free = nodes.free_rows(writer) as usize;
    scan_once(nodes, writer, tally, free);
    if nodes.free_rows(writer) >= rows {
        return true;
    }
    thread::yield_now();
    false
}
