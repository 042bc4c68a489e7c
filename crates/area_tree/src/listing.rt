//! The areas as a list.
ghost use Rattle.std.specs.Prelude.{◌≡◌, ◌≤◌, ◌+◌, ◌*◌, [], length, map, IfOk};
ghost use Rattle.std.specs.Vec.{vec_capacity};
ghost use Rattle.area_tree.specs.AreaTrees.{AreRecords, areas_shown, shown_at, areas_of};

use crate::SpanTree;
use crate::placing::shown_by;
use crate::records::Records;
use crate::tree::AreaTree;
use mm_types::{AreaList, NoMemory, Page, Record};
use node_slots::Reads;
use std::alloc::Global;

/// Appends what the slots of a tree show, in order, within the room. Reads at most 30 rows for each, and 30.
fn append(tree: &SpanTree, records: &Records, list: &mut Vec<Record>, reads: &mut Reads)
    requires spans { AreRecords records.now tree.now.pairs }
    requires empty { list.old.items ≡ [] }
    requires room { length tree.now.pairs ≤ vec_capacity list.old }
    ensures areas { list.new.items ≡ areas_shown (map (shown_at records.now) tree.now.pairs) }
    ensures reads { reads.new ≤ reads.old + 30 * (length tree.now.pairs + 1) }
{
    tree.facts();
    let mut page = 0;
    while let Some(area) = shown_by(records, tree.next_slot(Page(page), reads)) {
        page = area.span.hi;
        list.push_reserved(area);
    }
}

impl AreaTree {
    /// A copy of the list of areas, in order.
    pub fn copy_list(&self, alloc: Global) -> Result<AreaList, NoMemory>
        ensures { IfOk result (λ list. list ≡ areas_of self.now) }
    {
        let mut list = Vec::with_capacity(alloc, self.count as usize)?;
        append(&self.tree, &self.records, &mut list, &mut self.may.begin());
        Ok(AreaList::of(list))
    }

    /// Hands the list of areas out, in order. No memory is taken.
    pub fn into_list(self) -> AreaList
        ensures { result ≡ areas_of self }
    {
        let AreaTree {
            tree,
            records,
            bounds: _,
            most: _,
            count: _,
            sealed: _,
            mut list,
            may,
        } = self;
        append(&tree, &records, &mut list, &mut may.begin());
        AreaList::of(list)
    }
}
