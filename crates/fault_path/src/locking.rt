//! The lock of an area, by a walk of the tree of areas.
ghost use Rattle.std.specs.Prelude.{◌≡◌, ◌<◌, MatchResult};
ghost use Rattle.mm_types.specs.Config.{IsValidConfig};
ghost use Rattle.area_list.specs.Areas.{has_page};
ghost use Rattle.lock_core.specs.declared.stage.Stage.TheVariants.{Out};
ghost use Rattle.vma_lock.specs.Seats.{slots_of, IsOfVmaTable, lock_view, stage};
ghost use Rattle.node_slots.specs.Seats as node_seats;
ghost use Rattle.fault_path.specs.Faults.{WalksOnce, IsMiss, IsFound};
ghost use Rattle.fault_path.specs.Locking.{GoesOn, IsLocked, IsPairedNow, LocksSlot, MissesSlot};

use crate::fast::Miss;
use maple_read::walk;
use mm_types::{Page, Record, Slot, unpack};
use node_slots::{NodeSeat, NodeTable};
use vma_lock::{ReaderSeat, VmaTable};

/// Walks the tree that is present, and locks the area that it has at a page: the reader then holds the area's slot, validated.
/// Where it misses, it holds none. The walker is closed again.
pub(crate) fn lock_page(
    table: &VmaTable,
    nodes: &NodeTable,
    reader: &mut ReaderSeat,
    walker: &mut NodeSeat,
    page: Page,
) -> Result<Record, Miss>
    requires tables { IsOfVmaTable reader.old table.now × node_seats.IsOfNodeTable walker.old nodes.now }
    requires slots { (node_seats.size_of nodes.now).slots ≡ slots_of table.now }
    requires config { IsValidConfig (lock_view reader.old).config }
    requires free { stage reader.old ≡ Out }
    requires closed { node_seats.IsClosed walker.old }
    ensures tables { IsOfVmaTable reader.new table.now × node_seats.IsOfNodeTable walker.new nodes.now }
    ensures closed { node_seats.IsClosed walker.new }
    ensures walk { WalksOnce (node_seats.node_view walker.old) (node_seats.node_view walker.new) }
    ensures goes_on { GoesOn (lock_view reader.old) (lock_view reader.new) }
    ensures locked { MatchResult result
        (λ area. IsLocked area (lock_view reader.new) × IsFound page.0 area (lock_view reader.old) (lock_view reader.new) (node_seats.node_view walker.new))
        (λ miss. (stage reader.new ≡ Out) × IsMiss page.0 (lock_view reader.old) (lock_view reader.new) (node_seats.node_view walker.new) miss) }
{
    nodes.open(walker);
    let root = nodes.root(walker);
    let found = walk(nodes, walker, root, page);
    let locked = match found {
        Some(slot) => lock_slot(table, reader, walker, slot, page),
        None => Err(Miss::NoArea { tree: root.tree }),
    };
    nodes.close(walker);
    locked
}

/// Locks the area in a slot, if it is not marked and has the page. The walker that found the slot is still open: a slot that a
/// tree in use pairs is not given to another area while the pin is open, so that the mark is not made on the slot of an area
/// that the walk never saw.
fn lock_slot(
    table: &VmaTable,
    reader: &mut ReaderSeat,
    walker: &NodeSeat,
    slot: Slot,
    page: Page,
) -> Result<Record, Miss>
    requires table { IsOfVmaTable reader.old table.now }
    requires config { IsValidConfig (lock_view reader.old).config }
    requires free { stage reader.old ≡ Out }
    requires slot { slot.0 < slots_of table.now }
    requires open { node_seats.IsOpen walker.now }
    requires found { IsPairedNow page.0 slot.0 (node_seats.node_view walker.now) }
    ensures table { IsOfVmaTable reader.new table.now }
    ensures goes_on { GoesOn (lock_view reader.old) (lock_view reader.new) }
    ensures locked { MatchResult result
        (λ area. IsLocked area (lock_view reader.new) × LocksSlot slot.0 page.0 area (lock_view reader.old) (lock_view reader.new))
        (λ miss. (stage reader.new ≡ Out) × MissesSlot slot.0 page.0 (lock_view reader.old) (lock_view reader.new) miss) }
{
    let lock_seq = table.add(reader, slot);
    let seq = table.look(reader);
    if lock_seq == seq {
        table.sub(reader);
        return Err(Miss::Marked { seq });
    }
    let row = table.read_row(reader);
    match unpack(&row) {
        Some(area) if has_page(&area, page) => Ok(area),
        _ => {
            table.sub(reader);
            Err(Miss::Elsewhere { row })
        }
    }
}

/// Whether an area has a page.
fn has_page(area: &Record, page: Page) -> bool
    ensures { result ≡ has_page area.now.span page.0 }
{
    area.span.lo <= page.0 && page.0 < area.span.hi
}
