//! Where so many free pages begin.

ghost use Rattle.std.specs.Prelude.{◌≤◌, ◌+◌, ◌*◌, MatchOption};
ghost use Rattle.node_slots.specs.Seats.{WritesNodeTable};
ghost use Rattle.node_slots.specs.Built.{IsWriters, pairs_now};
ghost use Rattle.mm_types.specs.Searches.{IsGreatest, IsLeast, NonePasses};
ghost use Rattle.maple_gap.specs.Gaps.{fits};
ghost use Rattle.maple_gap.specs.Internal.Searches.{IsOutermost};

use crate::branch::{descend, root_with_gap};
use crate::window::{Side, Window};
use mm_types::Page;
use node_slots::{NodeTable, NodeWriter, Reads, Tree};

/// The greatest start of `len` free pages of the writer's tree that all lie from page `lo` up to page `hi`. None exactly where
/// there is none. Counts a read for each node.
pub fn highest(
    nodes: &NodeTable,
    writer: &NodeWriter,
    tree: &Tree,
    len: u64,
    lo: u64,
    hi: u64,
    reads: &mut Reads,
) -> Option<Page>
    requires table { WritesNodeTable writer.now nodes.now }
    requires tree { IsWriters writer.now tree.now }
    requires some { 1 ≤ len }
    requires limit { hi ≤ tree.now.limit.0 }
    ensures start { MatchOption result (NonePasses (fits (pairs_now writer.now tree.now) len lo hi))
        (λ start. IsGreatest (fits (pairs_now writer.now tree.now) len lo hi) start.0) }
    ensures reads { reads.new ≤ reads.old + (3 * tree.now.height + 3) }
{
    let window = Window { len, lo, hi };
    let start = search(writer, tree, window, Side::High, reads)?;
    Some(Page(start))
}

/// The least start of `len` free pages of the writer's tree that all lie from page `lo` up to page `hi`. None exactly where
/// there is none. Counts a read for each node.
pub fn lowest(
    nodes: &NodeTable,
    writer: &NodeWriter,
    tree: &Tree,
    len: u64,
    lo: u64,
    hi: u64,
    reads: &mut Reads,
) -> Option<Page>
    requires table { WritesNodeTable writer.now nodes.now }
    requires tree { IsWriters writer.now tree.now }
    requires some { 1 ≤ len }
    requires limit { hi ≤ tree.now.limit.0 }
    ensures start { MatchOption result (NonePasses (fits (pairs_now writer.now tree.now) len lo hi))
        (λ start. IsLeast (fits (pairs_now writer.now tree.now) len lo hi) start.0) }
    ensures reads { reads.new ≤ reads.old + (3 * tree.now.height + 3) }
{
    let window = Window { len, lo, hi };
    let start = search(writer, tree, window, Side::Low, reads)?;
    Some(Page(start))
}

/// The greatest or the least start in a window.
fn search(
    writer: &NodeWriter,
    tree: &Tree,
    window: Window,
    side: Side,
    reads: &mut Reads,
) -> Option<u64>
    requires tree { IsWriters writer.now tree.now }
    requires some { 1 ≤ window.len }
    requires limit { window.hi ≤ tree.now.limit.0 }
    ensures start { IsOutermost side (fits (pairs_now writer.now tree.now) window.len window.lo window.hi) result }
    ensures reads { reads.new ≤ reads.old + (2 * tree.now.height + 2) }
{
    let root = root_with_gap(writer, tree, reads);
    if !window.may_have(root.level == 0, root.place) {
        return None;
    }
    let down = descend(writer, window, side, root, reads);
    if down.found.is_some() {
        return down.found;
    }
    let Some(spare) = down.spare else {
        return None;
    };
    descend(writer, window, side, spare, reads).found
}
