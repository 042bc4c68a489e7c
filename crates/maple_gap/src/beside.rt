//! The areas beside a page.

ghost use Rattle.std.specs.Prelude.{◌≡◌, ◌≤◌, ◌+◌, ◌*◌};
ghost use Rattle.maple_node.specs.Words.{slot_of};
ghost use Rattle.node_slots.specs.Seats.{WritesNodeTable};
ghost use Rattle.node_slots.specs.Built.{IsWriters, pairs_now};
ghost use Rattle.maple_gap.specs.Gaps.{first_pair_from, last_pair_before, slot_in};

use crate::branch::{entry_at, entry_near, leaf_at, root_of};
use maple_node::slot_of;
use mm_types::{Page, Slot};
use node_slots::{NodeTable, NodeWriter, Reads, Tree};

/// The slot of the first pair of the writer's tree that ends above a page. None exactly where there is none. Counts a read for each node.
pub fn next_slot(
    nodes: &NodeTable,
    writer: &NodeWriter,
    tree: &Tree,
    page: Page,
    reads: &mut Reads,
) -> Option<Slot>
    requires table { WritesNodeTable writer.now nodes.now }
    requires tree { IsWriters writer.now tree.now }
    ensures slot { result ≡ slot_in (first_pair_from (pairs_now writer.now tree.now) page.0) }
    ensures reads { reads.new ≤ reads.old + (3 * tree.now.height + 3) }
{
    let root = root_of(writer, tree, reads);
    let limit = root.place.item.end;
    if page.0 >= limit {
        return None;
    }
    let leaf = leaf_at(writer, root, page.0, reads);
    let here = entry_at(writer, leaf, page.0, reads);
    if here.item.word != 0 {
        return slot_of(here.item.word);
    }
    if here.item.end >= limit {
        return None;
    }
    let next = entry_near(writer, root, leaf, here.item.end, reads);
    slot_of(next.item.word)
}

/// The slot of the last pair of the writer's tree that begins below a page. None exactly where there is none. Counts a read for each node.
pub fn before_slot(
    nodes: &NodeTable,
    writer: &NodeWriter,
    tree: &Tree,
    page: Page,
    reads: &mut Reads,
) -> Option<Slot>
    requires table { WritesNodeTable writer.now nodes.now }
    requires tree { IsWriters writer.now tree.now }
    ensures slot { result ≡ slot_in (last_pair_before (pairs_now writer.now tree.now) page.0) }
    ensures reads { reads.new ≤ reads.old + (3 * tree.now.height + 3) }
{
    let root = root_of(writer, tree, reads);
    let above = page.0.min(root.place.item.end);
    if above == 0 {
        return None;
    }
    let here = entry_at(writer, root, above - 1, reads);
    if here.item.word != 0 {
        return slot_of(here.item.word);
    }
    if here.start == 0 {
        return None;
    }
    let before = entry_at(writer, root, here.start - 1, reads);
    slot_of(before.item.word)
}
