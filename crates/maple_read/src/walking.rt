ghost use Rattle.std.specs.Prelude.{◌≡◌, ◌≤◌, ◌+◌, ◌*◌, ℕ, Some, true, false};
ghost use Rattle.std.specs.Option.{option_map};
ghost use Rattle.maple_node.specs.Codec.{width_of};
ghost use Rattle.maple_node.specs.Levels.{at_of, items_at, item_at};
ghost use Rattle.node_slots.specs.declared.view.ShownTree.{ShownTree};
ghost use Rattle.node_slots.specs.Seats.{IsOfNodeTable, IsOpen, node_view};
ghost use Rattle.maple_read.specs.Walks.{HasLoaded, HasNode, shown_slot};

use maple_node::{NODE_WORDS, Root, width_of};
use mm_types::{Page, Row, Slot};
use node_slots::{NodeSeat, NodeTable};

/// The slot that the loaded tree pairs with a page, or none where no pair has it. It reads at most 11 words of each inner node
/// on the way, and 17 of a leaf.
pub fn walk(nodes: &NodeTable, seat: &mut NodeSeat, root: Root, page: Page) -> Option<Slot>
    requires table { IsOfNodeTable seat.old nodes.now }
    requires open { IsOpen seat.old }
    requires loaded { HasLoaded (node_view seat.old) root }
    ensures table { IsOfNodeTable seat.new nodes.now }
    ensures slot { (shown : ShownTree) → (node_view seat.old).snapshot ≡ Some shown → option_map (λ slot. slot.0) result ≡ shown_slot page.0 shown }
    ensures view { (reads : ℕ) × (reads ≤ 105) × (node_view seat.new ≡ record (node_view seat.old) { words = (node_view seat.old).words + reads }) }
{
    let mut row = root.row;
    for _depth in 1..root.height {
        let child = item_word(nodes, seat, row, false, page)?;
        row = Row(child as u32);
    }
    let number = item_word(nodes, seat, row, true, page)?.checked_sub(1)?;
    Some(Slot(number as u32))
}

/// The second word of the place of a node that has a page: of a child its row, and of an entry its slot's number plus 1, or 0
/// for a gap. None where no place has the page.
fn item_word(
    nodes: &NodeTable,
    seat: &mut NodeSeat,
    row: Row,
    leaf: bool,
    page: Page,
) -> Option<u64>
    requires table { IsOfNodeTable seat.old nodes.now }
    requires node { HasNode (node_view seat.old) row.0 }
    ensures table { IsOfNodeTable seat.new nodes.now }
    ensures word { (shown : ShownTree) → (node_view seat.old).snapshot ≡ Some shown
        → option_map (λ item. item.word) (item_at page.0 (items_at (at_of shown.words) leaf row.0)) ≡ result }
    ensures view { (reads : ℕ) × (width_of leaf * reads ≤ 32 + width_of leaf) × (node_view seat.new ≡ record (node_view seat.old) { words = (node_view seat.old).words + reads }) }
{
    let width = width_of(leaf) as u32;
    let mut place = 0;
    while place + width <= NODE_WORDS as u32 {
        let end = nodes.word(seat, row, place);
        if end == 0 {
            return None;
        }
        if page.0 < end {
            return Some(nodes.word(seat, row, place + 1));
        }
        place += width;
    }
    None
}
