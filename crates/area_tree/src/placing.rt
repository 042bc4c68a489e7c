//! The areas beside a page, and where new areas go, by searches of the tree.
ghost use Rattle.std.specs.Prelude.{◌≡◌, ◌≤◌, ◌+◌, false, Option, List, All, map};
ghost use Rattle.std.specs.Option.{option_map};
ghost use Rattle.mm_types.specs.declared.area.Record.{Record};
ghost use Rattle.area_rules.specs.declared.placement.TheConstants.{WINDOW_END};
ghost use Rattle.area_rules.specs.Placement.{place_low};
ghost use Rattle.split_merge.specs.PageNumbers.{page_number};
ghost use Rattle.area_tree.specs.AreaTrees.{AreRecords, area_in, areas_of, areas_shown, shown_at};

use crate::SpanTree;
use crate::records::Records;
use crate::tree::AreaTree;
use area_rules::{Bounds, FLOOR, WINDOW_END};
use mm_types::{Page, Record, Slot};
use node_slots::Reads;
use split_merge::Areas;

/// What a slot shows, if there is one.
pub(crate) fn shown_by(records: &Records, slot: Option<Slot>) -> Option<Record>
    ensures { result ≡ option_map (λ slot. area_in records.now slot.0) slot }
{
    slot.map(|slot| records.area_in(slot.0))
}

/// Where so many pages go that name no place. Reads at most 60 rows: two searches, on the count that it is handed.
fn placed(tree: &SpanTree, bounds: Bounds, len: u64, reads: &mut Reads) -> Option<Page>
    requires some { 1 ≤ len }
    requires top { bounds.top ≤ tree.now.limit }
    requires window { WINDOW_END ≤ tree.now.limit }
    ensures place { (records : List Record) → AreRecords records tree.now.pairs
        → page_number result ≡ place_low bounds (areas_shown (map (shown_at records) tree.now.pairs)) len }
    ensures reads { reads.new ≤ reads.old + 60 }
{
    match tree.highest(len, bounds.low, bounds.top, reads) {
        Some(start) => Some(start),
        None => tree.lowest(len, bounds.low.max(FLOOR), WINDOW_END, reads),
    }
}

impl Areas for AreaTree {
    ghost use Rattle.area_tree.specs.AreaTrees.{areas_of};

    ghost list = { areas_of };

    ghost bounds = { λ areas. areas.bounds };

    ghost most = { λ areas. areas.tree.areas };

    fn count(&self) -> u64 {
        self.count
    }

    fn from(&self, page: Page) -> Option<Record> {
        let mut reads = self.may.begin();
        shown_by(&self.records, self.tree.next_slot(page, &mut reads))
    }

    fn before(&self, page: Page) -> Option<Record> {
        let mut reads = self.may.begin();
        shown_by(&self.records, self.tree.before_slot(page, &mut reads))
    }

    fn place(&self, len: u64) -> Option<Page> {
        placed(&self.tree, self.bounds, len, &mut self.may.begin())
    }

    fn place_high(&self, len: u64) -> Option<Page> {
        let bounds = self.bounds;
        let mut reads = self.may.begin();
        self.tree.highest(len, bounds.low, bounds.limit, &mut reads)
    }

    /// Whether a slot ever showed a sealed area.
    fn may_be_sealed(&self) -> bool
        ensures ever { result ≡ self.now.sealed }
        ensures unsealed { result ≡ false → All (λ area. area.attr.sealed ≡ false) (areas_of self.now) }
    {
        self.sealed
    }
}
