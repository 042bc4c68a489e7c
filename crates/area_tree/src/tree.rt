//! The tree of areas.
ghost use Rattle.std.specs.Prelude.{◌≡◌, ◌≤◌, ◌<◌, ◌+◌, ◌^◌, ◌-◌, ◌∷◌, ◌++◌, ◌||◌, ℕ, true, false, nat_eq, nat_le, List, [], length, map, replicate, slice_set, All, Contains, IsPermutation, IfOk};
ghost use Rattle.mm_types.specs.declared.area.Record.{Record};
ghost use Rattle.mm_types.specs.Config.{IsValidConfig, slots_for};
ghost use Rattle.area_list.specs.Areas.{page_of};
ghost use Rattle.area_rules.specs.Placement.{bounds_of, is_free};
ghost use Rattle.node_slots.specs.Seats.{pins_of, free_of, AreOut};
ghost use Rattle.vma_lock.specs.Seats.{HasOpenCall, journal, lock_sight};
ghost use Rattle.area_tree.specs.SpanTrees.{IsFreshWriter, AreTries, enough};
ghost use Rattle.area_tree.specs.declared.shown.ShownArea.{ShownArea};
ghost use Rattle.maple_gap.specs.Gaps.{span_of};
ghost use Rattle.area_tree.specs.AreaTrees.{no_area, shown_of, areas_of, areas_shown, times_shown, Adjoin, AreasRise};

use crate::SpanTree;
use crate::records::Records;
use crate::shown::ShownArea;
use area_list::page_of;
use area_rules::{Bounds, bounds_of};
use mm_types::{Config, NoMemory, Page, Record, Slot, Span, slots_for};
use node_slots::{MayCount, NodeWriter};
use std::alloc::Global;
use std::marker::Model;
use std::sync::Wait;
use vma_lock::WriterSeat;

/// The areas of an address space: the tree of their spans and slots, and what each slot shows. Contracts see the tree, the
/// records by slot, and the pages between which areas are placed. It never holds two areas with a page in common.
#[derive(Drop)]
pub struct AreaTree {
    pub(crate) tree: SpanTree,
    /// What each slot shows, or showed last.
    pub(crate) records: Records,
    pub(crate) bounds: Bounds,
    /// The most areas that it may have.
    pub(crate) most: u32,
    /// How many areas there are.
    pub(crate) count: u64,
    /// Whether a slot ever showed a sealed area.
    pub(crate) sealed: bool,
    /// Where the areas are handed out in order: empty until then.
    pub(crate) list: Vec<Record>,
    /// With it a count of the rows that are read is begun.
    pub(crate) may: MayCount,
}

impl Model for AreaTree {
    ghost use Rattle.area_tree.specs.AreaTrees.{AreaTreeView};

    ghost Value = { AreaTreeView };

    ghost use Rattle.area_tree.specs.Kept.{area_tree_view, IsAreaTree};

    ghost view = { area_tree_view };

    ghost invariant = { IsAreaTree };
}

impl AreaTree {
    /// No area, in a table of nodes that was just made, of which the writer is given: it has the rows
    /// and the slots for so many areas.
    pub fn new(alloc: Global, config: &Config, mut nodes: NodeWriter) -> Result<AreaTree, NoMemory>
        requires config { IsValidConfig config.now }
        requires fresh { IsFreshWriter config.now.areas nodes }
        ensures { IfOk result (λ areas. areas ≡ record {
          tree = record {
            table = nodes.writer_state.seat.table_id;
            areas = config.now.areas;
            limit = page_of config.now.limit;
            number = 0;
            published = 0;
            elapsed = 0;
            pairs = [];
            shown = [];
            changed = false;
            roomy = false;
            scans = 0;
            found = [];
            pins = pins_of nodes;
            free = length (free_of nodes);
          };
          records = replicate (slots_for config.now.areas) no_area;
          bounds = bounds_of config.now;
          sealed = false;
        }) }
    {
        let may = nodes.may_count();
        let tree = SpanTree::new(config.areas, Page(page_of(config.limit)), nodes)?;
        Ok(AreaTree {
            tree,
            records: Records::new(alloc, slots_for(config.areas))?,
            bounds: bounds_of(config),
            most: config.areas,
            count: 0,
            sealed: false,
            list: Vec::with_capacity(alloc, config.areas as usize)?,
            may,
        })
    }

    /// The slot that shows an area of the tree.
    pub fn slot_of(&self, area: &Record) -> Slot
        requires { Contains (areas_of self.now) area.now }
        ensures { Contains (shown_of self.now) (record { slot = result.0; area = area.now }) }
    {
        self.tree.facts();
        let mut reads = self.may.begin();
        match self.tree.next_slot(Page(area.span.lo), &mut reads) {
            Some(slot) => slot,
            None => unreachable!(),
        }
    }

    /// Takes an area out of the tree.
    pub fn remove(&mut self, area: &Record)
        requires roomy { self.old.tree.roomy ≡ true }
        requires member { Contains (areas_of self.old) area.now }
        ensures shown { (slot : ℕ) → Contains (shown_of self.old) (record { slot = slot; area = area.now })
            → IsPermutation (record { slot = slot; area = area.now } ∷ shown_of self.new) (shown_of self.old) }
        ensures same { self.new ≡ record self.old { tree = record self.old.tree { pairs = self.new.tree.pairs; changed = true; free = self.new.tree.free } } }
    {
        self.tree.facts();
        self.tree.store(self.may, area.span, None);
        self.count -= 1;
    }

    /// Takes areas out of the tree that adjoin each other, so many, which have the pages of a span: one span is stored for all.
    pub fn remove_all(&mut self, span: Span, count: u64)
        requires roomy { self.old.tree.roomy ≡ true }
        requires areas { (taken : List ShownArea) × All (Contains (shown_of self.old)) taken × Adjoin span.lo span.hi (areas_shown taken)
            × (length taken ≡ count) × (0 < count) }
        ensures shown { (taken : List ShownArea) → All (Contains (shown_of self.old)) taken → Adjoin span.lo span.hi (areas_shown taken)
            → IsPermutation (taken ++ shown_of self.new) (shown_of self.old) }
        ensures same { self.new ≡ record self.old { tree = record self.old.tree { pairs = self.new.tree.pairs; changed = true; free = self.new.tree.free } } }
    {
        self.tree.facts();
        self.tree.store(self.may, span, None);
        self.count -= count;
    }

    /// Whether the tree has as many areas as it may have.
    pub fn is_full(&self) -> bool
        ensures { result ≡ nat_le self.now.tree.areas (length (areas_of self.now)) }
    {
        self.count >= u64::from(self.most)
    }

    /// A slot of the tree shows another area, with the pages of the one before.
    pub fn update(&mut self, shown: ShownArea)
        requires member { (old : Record) × Contains (shown_of self.old) (record { slot = shown.slot; area = old }) × (old.span ≡ shown.area.span) }
        requires once { times_shown shown.slot (shown_of self.old) ≤ 1 }
        ensures shown { (old : Record) → Contains (shown_of self.old) (record { slot = shown.slot; area = old })
            → (rest : List ShownArea) × IsPermutation (record { slot = shown.slot; area = old } ∷ rest) (shown_of self.old)
            × IsPermutation (shown ∷ rest) (shown_of self.new) }
        ensures same { self.new ≡ record self.old {
          records = slice_set self.old.records shown.slot shown.area;
          sealed = self.old.sealed || shown.area.attr.sealed;
        } }
    {
        self.tree.facts();
        self.records.show(shown.slot, shown.area);
        self.sealed |= shown.area.attr.sealed;
    }

    /// A slot that shows no area of the tree shows one at free pages.
    pub fn insert(&mut self, shown: ShownArea)
        requires roomy { self.old.tree.roomy ≡ true }
        requires span { (shown.area.span.lo < shown.area.span.hi) × (shown.area.span.hi ≤ self.old.tree.limit) }
        requires pages { is_free (areas_of self.old) (shown.area.span.hi - shown.area.span.lo) shown.area.span.lo ≡ true }
        requires slot { shown.slot < slots_for self.old.tree.areas }
        requires free { times_shown shown.slot (shown_of self.old) ≡ 0 }
        requires few { length (areas_of self.old) < self.old.tree.areas }
        ensures shown { IsPermutation (shown ∷ shown_of self.old) (shown_of self.new) }
        ensures same { self.new ≡ record self.old {
          tree = record self.old.tree { pairs = self.new.tree.pairs; changed = true; free = self.new.tree.free };
          records = slice_set self.old.records shown.slot shown.area;
          sealed = self.old.sealed || shown.area.attr.sealed;
        } }
    {
        self.tree.facts();
        self.records.show(shown.slot, shown.area);
        self.sealed |= shown.area.attr.sealed;
        self.tree
            .store(self.may, shown.area.span, Some(Slot(shown.slot)));
        self.count += 1;
    }

    /// Scans until enough rows are free for all changes up to the next publish, which waits for readers. Where tree 0 is present,
    /// which has no entries, a tree of one gap is built.
    pub fn prepare<R: Wait>(&mut self, rt: &R)
        requires { self.old.tree.changed ≡ false }
        ensures same { self.new ≡ record self.old {
          tree = record self.old.tree {
            changed = nat_eq self.old.tree.number 0;
            roomy = true;
            elapsed = self.new.tree.elapsed;
            scans = self.new.tree.scans;
            found = self.new.tree.found;
            pins = self.new.tree.pins;
            free = self.new.tree.free;
          };
        } }
        ensures elapsed { self.old.tree.elapsed ≤ self.new.tree.elapsed }
        ensures shown { self.old.tree.shown ≡ self.old.tree.pairs }
        ensures readers { length self.new.tree.pins ≡ length self.old.tree.pins }
        // each pin is looked at once, and once more for each try after the first, before which too few rows were free
        ensures scans { (tries : List ℕ) × AreTries (enough self.old.tree.areas) self.old.tree self.new.tree tries }
        // and just once where enough rows are free already
        ensures once { enough self.old.tree.areas ≤ self.old.tree.free → self.new.tree.scans ≡ self.old.tree.scans + length self.old.tree.pins }
    {
        self.tree.prepare(rt, self.may);
    }

    /// Publishes the tree in the open call of the lock's writer: it is the present one, with the next number. So many calls ended before
    /// this one as trees were published, so none is published twice in a call, and none between two calls.
    pub fn publish(&mut self, writer: &WriterSeat)
        requires call { HasOpenCall writer.now × (length (journal writer.now) ≡ self.old.tree.number) }
        requires roomy { self.old.tree.roomy ≡ true }
        requires number { self.old.tree.number < 2 ^ 40 - 1 }
        ensures same { self.new ≡ record self.old {
          tree = record self.old.tree {
            number = self.old.tree.number + 1;
            published = (lock_sight writer.now).writer_state.seq;
            shown = self.old.tree.pairs;
            changed = false;
            roomy = false;
            elapsed = self.new.tree.elapsed;
          };
        } }
        ensures elapsed { self.old.tree.elapsed ≤ self.new.tree.elapsed }
    {
        self.tree.publish(writer);
    }

    /// The greatest tree, at most the present one, such that no row waits that left at its publish or before.
    pub fn elapsed(&self) -> u64
        ensures elapsed { result ≡ self.now.tree.elapsed }
        ensures most { result ≤ self.now.tree.number }
    {
        self.tree.elapsed()
    }

    /// Looks at the pin of each reader once: rows that no reader may read any more are free again. It notes how many of what it is for the
    /// caller had before.
    pub fn scan(&mut self, count: usize)
        ensures same { self.new ≡ record self.old {
          tree = record self.old.tree {
            elapsed = self.new.tree.elapsed;
            scans = self.old.tree.scans + length self.old.tree.pins;
            found = self.old.tree.found ++ count ∷ [];
            pins = self.new.tree.pins;
            free = self.new.tree.free;
          };
        } }
        ensures elapsed { self.old.tree.elapsed ≤ self.new.tree.elapsed }
        ensures readers { length self.new.tree.pins ≡ length self.old.tree.pins }
        // once it finds every reader closed, every tree's grace period has elapsed
        ensures gone { AreOut self.new.tree.pins → self.new.tree.elapsed ≡ self.new.tree.number }
    {
        self.tree.scan(count);
    }

    /// What the type keeps: the areas stand in order up to the limit, no more than may be; each has the pages of its pair; and
    /// there is a record for each slot.
    pub fn facts(&self)
        ensures rise { AreasRise self.now.tree.limit 0 (areas_of self.now) }
        ensures few { length (areas_of self.now) ≤ self.now.tree.areas }
        ensures spans { map span_of self.now.tree.pairs ≡ map (λ area. area.span) (areas_of self.now) }
        ensures slots { length self.now.records ≡ slots_for self.now.tree.areas }
        ensures limit { self.now.bounds.limit ≡ self.now.tree.limit }
    {
        self.tree.facts();
    }
}
