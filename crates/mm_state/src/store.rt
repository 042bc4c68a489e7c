//! The table with its writer, the tree of areas, and which slots are free.
ghost use Rattle.std.specs.Prelude.{◌≡◌, ◌<◌, ◌≤◌, ◌+◌, ◌-◌, ◌/◌, ◌^◌, ◌∷◌, [], ℕ, true, false, length, vec_len, vec_capacity, All, Contains, IfOk};
ghost use Rattle.mm_types.specs.declared.config.Config.{Config};
ghost use Rattle.mm_types.specs.Config.{IsValidConfig};
ghost use Rattle.mm_types.specs.Records.{IsValid};
ghost use Rattle.area_rules.specs.Journals.{calls_by};
ghost use Rattle.area_rules.specs.Placement.{bounds_of};
ghost use Rattle.lock_core.specs.declared.stage.Stage.TheVariants.{Out};
ghost use Rattle.lock_core.specs.Core.{slot_at, StartsWith};
ghost use Rattle.split_merge.specs.Plans.{olds_of, news_of, IsPlanOf};
ghost use Rattle.split_merge.specs.declared.plan.Change.TheVariants.{Detach, Alter, Add};
ghost use Rattle.vma_lock.specs.Seats.{table_config, slots_of, IsOfVmaTable, WritesVmaTable, lock_view, seen, stage, HasTurn, lock_sight, journal, slots, HasOpenCall, HasNoOpenCall, MayEnter};
ghost use Rattle.vma_lock.specs.Views.{opened_lock_view, look_at};
ghost use Rattle.area_slots.specs.Slots.{IsSlotTaken};
ghost use Rattle.area_tree.specs.AreaTrees.{areas_of};
ghost use Rattle.mm_state.specs.Internal.AreaStores.{IsWritten, CanChange, Carries, IsSaneChange, IsChanging, IsAtRest, IsReadied, IsEntered, IsCarriedOut, adds, adds_of, CanFree};
ghost use Rattle.mm_state.specs.Internal.Runs.{IsRunOfRemovals, IsLetGo, CarriesAll};
ghost use Rattle.mm_state.specs.Internal.Waits.{FoundReaders};
ghost use Rattle.area_tree.specs.SpanTrees.{IsFreshWriter};

use crate::runs::run_before;
use crate::spans::{count_adds, has_room, is_end, pop_moved_at, store_moved, wait_for_slots};
use area_slots::AreaSlots;
use area_tree::{AreaTree, ShownArea, beside};
use mm_types::{Config, Entry, NoMemory, Record, Slot, Span, pack, slots_for};
use node_slots::NodeWriter;
use split_merge::Change;
use std::alloc::Global;
use std::sync::Wait;
use std::thread;
use vma_lock::{ReaderSeat, VmaTable, WriterSeat};

/// The row of no area.
const DETACHED: [u64; 4] = [0; 4];

/// A table with its writer, the areas in the tree of their spans and slots, and the other slots.
#[derive(Drop)]
pub(crate) struct AreaStore {
    pub(crate) table: VmaTable,
    pub(crate) writer: WriterSeat,
    pub(crate) areas: AreaTree,
    pub(crate) slots: AreaSlots,
    /// The areas that the open call brings at other pages than their slots showed before, until the tree has them.
    pub(crate) moved: Vec<ShownArea>,
}

/// Marks a slot, once no reader holds it, and writes its row.
fn write_slot<R: Wait>(rt: &R, table: &VmaTable, writer: &mut WriterSeat, slot: Slot, row: [u64; 4])
    requires table { WritesVmaTable writer.old table.now }
    requires open_call { HasOpenCall writer.old }
    requires slot { slot.0 < slots_of table.now }
    ensures table { WritesVmaTable writer.new table.now }
    ensures written { IsWritten (lock_sight writer.old) slot.0 row (lock_sight writer.new) }
{
    mark(rt, table, writer, slot);
    table.write_row(writer, slot, row);
}

/// Marks a slot once no reader holds it.
fn mark<R: Wait>(rt: &R, table: &VmaTable, writer: &mut WriterSeat, slot: Slot)
    requires table { WritesVmaTable writer.old table.now }
    requires open_call { HasOpenCall writer.old }
    requires slot { slot.0 < slots_of table.now }
    ensures table { WritesVmaTable writer.new table.now }
    ensures marked { IsWritten (lock_sight writer.old) slot.0 (slot_at (slots writer.old) slot.0).row (lock_sight writer.new) }
{
    for _ in rt.forever() {
        if mark_once(table, writer, slot) {
            return;
        }
    }
    unreachable!()
}

/// Tries once to mark a slot, and answers whether it did. Where it did not, a reader holds the slot, and it lets other threads run.
fn mark_once(table: &VmaTable, writer: &mut WriterSeat, slot: Slot) -> bool
    requires table { WritesVmaTable writer.old table.now }
    requires open_call { HasOpenCall writer.old }
    requires slot { slot.0 < slots_of table.now }
    ensures table { WritesVmaTable writer.new table.now }
    ensures marked { result ≡ true → IsWritten (lock_sight writer.old) slot.0 (slot_at (slots writer.old) slot.0).row (lock_sight writer.new) }
    ensures reader { result ≡ false → FoundReaders (lock_sight writer.old) slot.0 (lock_sight writer.new) }
{
    if table.try_mark(writer, slot).is_ok() {
        return true;
    }
    thread::yield_now();
    false
}

impl AreaStore {
    /// The store of a new table, of which the writer is given, for the areas of a configuration, with a tree in a new table of
    /// nodes, of which the writer is given. No slot shows an area.
    pub(crate) fn new(
        alloc: Global,
        config: &Config,
        writer: WriterSeat,
        nodes: NodeWriter,
    ) -> Result<AreaStore, NoMemory>
        requires config { IsValidConfig config.now }
        requires fresh { (readers : ℕ) × (lock_sight writer ≡ opened_lock_view config.now readers) }
        requires nodes { IsFreshWriter config.now.areas nodes }
        ensures rest { IfOk result IsAtRest }
        ensures none { IfOk result (λ store. areas_of store.areas ≡ []) }
        ensures bounds { IfOk result (λ store. (store.areas.bounds ≡ bounds_of config.now) × (store.areas.tree.areas ≡ config.now.areas)) }
        ensures writer { IfOk result (λ store. (store.writer ≡ writer) × (table_config store.table ≡ (lock_sight writer).config)) }
        ensures tree { IfOk result (λ store. (store.areas.tree.table ≡ nodes.writer_state.seat.table_id) × (store.areas.tree.number ≡ 0) × (store.areas.tree.published ≡ 0) × (store.areas.tree.shown ≡ [])
            × (store.areas.tree.elapsed ≡ 0) × (store.slots.left ≡ [])) }
    {
        let table = writer.table()?;
        Ok(AreaStore {
            table,
            writer,
            areas: AreaTree::new(alloc, config, nodes)?,
            slots: AreaSlots::new(alloc, slots_for(config.areas))?,
            moved: Vec::with_capacity(alloc, config.areas as usize)?,
        })
    }

    /// A reader meets the writer, who has no turn.
    pub(crate) fn meet(&mut self, seat: &mut ReaderSeat)
        requires rest { IsAtRest self.old }
        requires table { IsOfVmaTable seat.old self.old.table }
        requires turn { (lock_sight self.old.writer).turn ≡ None }
        requires free { stage seat.old ≡ Out }
        ensures rest { IsAtRest self.new }
        ensures table { (self.new.table ≡ self.old.table) × IsOfVmaTable seat.new self.new.table }
        ensures turn { (lock_sight self.new.writer).turn ≡ None }
        ensures seq { (lock_sight self.new.writer).writer_state.seq ≡ (lock_sight self.old.writer).writer_state.seq }
        ensures same { (slots self.new.writer ≡ slots self.old.writer) × (journal self.new.writer ≡ journal self.old.writer) × (self.new.areas ≡ self.old.areas)
            × (self.new.slots ≡ self.old.slots) }
        ensures view { (found : ℕ) × (found / 2 ≡ length (journal self.old.writer) + 1)
            × (lock_view seat.new ≡ look_at (lock_view seat.old) found (journal self.old.writer) Out) }
        ensures later { StartsWith (journal self.old.writer) (seen seat.old) }
        ensures own { HasTurn seat.old → calls_by (lock_view seat.old).caller (journal self.old.writer) ≡ calls_by (lock_view seat.old).caller (seen seat.old) }
    {
        self.table.meet(&mut self.writer, seat);
    }

    /// Makes a call by a plan of the list, with the turn of a reader, which it has again afterwards.
    pub(crate) fn enter<R: Wait>(
        &mut self,
        rt: &R,
        seat: &mut ReaderSeat,
        changes: &[Change],
        entry: Entry,
    )
        requires rest { IsAtRest self.old }
        requires table { IsOfVmaTable seat.old self.old.table }
        requires turn { HasTurn seat.old × (entry.caller ≡ (lock_view seat.old).caller) × ((lock_sight self.old.writer).turn ≡ None) }
        requires free { stage seat.old ≡ Out }
        requires room { length (journal self.old.writer) < 2 ^ 31 }
        requires plan { IsEntered self.old changes.now entry }
        ensures rest { IsAtRest self.new }
        ensures table { (self.new.table ≡ self.old.table) × IsOfVmaTable seat.new self.new.table }
        ensures turn { (lock_sight self.new.writer).turn ≡ None }
        ensures done { IsCarriedOut self.old self.new changes.now entry }
        ensures view { (found : ℕ) × (found / 2 ≡ length (journal self.new.writer) + 1)
            × (lock_view seat.new ≡ look_at (lock_view seat.old) found (journal self.new.writer) Out) }
        ensures later { StartsWith (journal self.old.writer) (seen seat.old) }
        ensures own { calls_by (lock_view seat.old).caller (journal self.old.writer) ≡ calls_by (lock_view seat.old).caller (seen seat.old) }
    {
        self.table.lend(&mut self.writer, seat);
        self.carry_out(rt, changes, entry);
        self.table.meet(&mut self.writer, seat);
    }

    /// Makes a call by a plan of the list, with the turn that the writer has or for nobody who has a seat, publishes the tree
    /// after it, and enters it in the journal.
    pub(crate) fn carry_out<R: Wait>(&mut self, rt: &R, changes: &[Change], entry: Entry)
        requires rest { IsAtRest self.old }
        requires turn { MayEnter entry (lock_sight self.old.writer).turn }
        requires room { length (journal self.old.writer) < 2 ^ 31 }
        requires plan { IsEntered self.old changes.now entry }
        ensures rest { IsAtRest self.new }
        ensures table { self.new.table ≡ self.old.table }
        ensures turn { (lock_sight self.new.writer).turn ≡ (lock_sight self.old.writer).turn }
        ensures done { IsCarriedOut self.old self.new changes.now entry }
    {
        self.areas.facts();
        self.make_ready(rt, changes);
        self.table.begin(&mut self.writer);
        let tree = self.writer.version() + 1;
        self.change_all(rt, changes, tree);
        store_moved(&mut self.areas, &mut self.moved);
        self.areas.facts();
        self.publish_areas();
        self.table.end(&mut self.writer, entry);
    }

    /// Prepares the tree, and waits until as many slots are free as the changes need: before a call, and never within one, whose
    /// readers would wait too.
    fn make_ready<R: Wait>(&mut self, rt: &R, changes: &[Change])
        requires closed { HasNoOpenCall self.old.writer }
        requires still { self.old.areas.tree.changed ≡ false }
        requires enough { CanFree self.old.areas self.old.slots (adds_of changes.now) }
        ensures ready { IsReadied self.old self.new changes.now }
        ensures shown { self.old.areas.tree.shown ≡ self.old.areas.tree.pairs }
    {
        self.areas.prepare(rt);
        let adds = count_adds(changes);
        wait_for_slots(rt, &mut self.areas, &mut self.slots, adds);
    }

    /// Publishes the tree in an open call. Readers may only meet a new tree while the sequence is odd: at an even sequence the
    /// present tree is that of the journal.
    fn publish_areas(&mut self)
        requires open_call { HasOpenCall self.old.writer }
        requires calls { length (journal self.old.writer) ≡ self.old.areas.tree.number }
        requires roomy { self.old.areas.tree.roomy ≡ true }
        requires number { self.old.areas.tree.number < 2 ^ 40 - 1 }
        ensures same { self.new ≡ record self.old { areas = self.new.areas } }
        ensures areas { self.new.areas ≡ record self.old.areas {
          tree = record self.old.areas.tree {
            number = self.old.areas.tree.number + 1;
            published = (lock_sight self.old.writer).writer_state.seq;
            shown = self.old.areas.tree.pairs;
            changed = false;
            roomy = false;
            elapsed = self.new.areas.tree.elapsed;
          };
        } }
        ensures elapsed { self.old.areas.tree.elapsed ≤ self.new.areas.tree.elapsed }
    {
        self.areas.publish(&self.writer);
    }

    /// Carries out the changes of a plan, from the last on, but for the areas that come to other pages, most of which have moved. What
    /// it takes away leaves with this tree.
    fn change_all<R: Wait>(&mut self, rt: &R, changes: &[Change], tree: u64)
        requires can { CanChange self.old }
        requires plan { IsPlanOf (areas_of self.old.areas) changes.now }
        requires sane { All IsSaneChange changes.now }
        requires moved { self.old.moved.items ≡ [] }
        requires leaving { All (λ leaving. leaving.tree ≤ tree) self.old.slots.left }
        requires free { adds_of changes.now ≤ length self.old.slots.free }
        requires room { length (news_of changes.now) ≤ vec_capacity self.old.moved }
        ensures { IsChanging self.old self.new changes.now tree }
    {
        self.areas.facts();
        let mut left = changes.len();
        while left > 0 {
            let run = run_before(changes, left);
            if left - run.first > 1 {
                self.detach_all(rt, &changes[run.first..left], run.span, tree);
                left = run.first;
            } else {
                left -= 1;
                self.change(rt, &changes[left], tree);
            }
        }
    }

    /// Carries out a change of a plan. What it takes away leaves with this tree.
    fn change<R: Wait>(&mut self, rt: &R, change: &Change, tree: u64)
        requires can { CanChange self.old }
        requires old { All (Contains (areas_of self.old.areas)) (olds_of (change.now ∷ [])) }
        requires new { All IsValid (news_of (change.now ∷ [])) }
        requires free { adds change.now ≤ length self.old.slots.free }
        requires room { vec_len self.old.moved + length (news_of (change.now ∷ [])) ≤ vec_capacity self.old.moved }
        ensures { Carries self.old self.new change.now tree }
    {
        match change {
            Change::Detach(old) => self.detach(rt, old, tree),
            Change::Alter { old, new } => self.alter(rt, old, new),
            Change::Add(new) => self.add(rt, new),
        }
    }

    /// The slot of an area is detached, and leaves.
    fn detach<R: Wait>(&mut self, rt: &R, old: &Record, tree: u64)
        requires can { CanChange self.old }
        requires old { Contains (areas_of self.old.areas) old.now }
        ensures { Carries self.old self.new (Detach old.now) tree }
    {
        let slot = self.areas.slot_of(old);
        self.areas.remove(old);
        self.let_go(rt, slot, tree);
    }

    /// The slots of areas that adjoin each other, which have the pages of a span, are detached, and leave. The tree loses all of
    /// them at once.
    fn detach_all<R: Wait>(&mut self, rt: &R, changes: &[Change], span: Span, tree: u64)
        requires can { CanChange self.old }
        requires olds { All (Contains (areas_of self.old.areas)) (olds_of changes.now) }
        requires run { IsRunOfRemovals span.lo span.hi changes.now }
        requires some { 0 < length changes.now }
        ensures { CarriesAll self.old self.new changes.now tree }
    {
        self.areas.facts();
        let mut left = changes.len();
        while left > 0 {
            left -= 1;
            let Change::Detach(old) = &changes[left] else {
                unreachable!()
            };
            let slot = self.areas.slot_of(old);
            self.let_go(rt, slot, tree);
        }
        self.areas.remove_all(span, changes.len() as u64);
    }

    /// A slot is detached, and leaves with a tree.
    fn let_go<R: Wait>(&mut self, rt: &R, slot: Slot, tree: u64)
        requires table { WritesVmaTable self.old.writer self.old.table }
        requires open_call { HasOpenCall self.old.writer }
        requires slot { slot.0 < slots_of self.old.table }
        requires taken { IsSlotTaken self.old.slots slot.0 }
        ensures { IsLetGo self.old self.new slot.0 tree }
    {
        write_slot(rt, &self.table, &mut self.writer, slot, DETACHED);
        self.slots.retire(slot, tree);
    }

    /// The slot of an area shows another.
    fn alter<R: Wait>(&mut self, rt: &R, old: &Record, new: &Record)
        requires can { CanChange self.old }
        requires old { Contains (areas_of self.old.areas) old.now }
        requires new { IsValid new.now }
        requires room { vec_len self.old.moved < vec_capacity self.old.moved }
        ensures { (tree : ℕ) → Carries self.old self.new (Alter old.now new.now) tree }
    {
        self.areas.facts();
        let slot = self.areas.slot_of(old);
        let row = pack(new);
        write_slot(rt, &self.table, &mut self.writer, slot, row);
        let shown = ShownArea {
            slot: slot.0,
            area: *new,
        };
        if old.span == new.span {
            self.areas.update(shown);
            return;
        }
        if is_end(new.span, old.span) {
            let lost = beside(new.span, old.span);
            if let Some(other) = pop_moved_at(&self.areas, &mut self.moved, lost) {
                self.areas.split(old, shown, other);
                return;
            }
            self.areas.shrink(old, shown);
            return;
        }
        if has_room(&self.areas, old.span, new.span) {
            self.areas.grow(old, shown);
            return;
        }
        self.areas.remove(old);
        self.moved.push_reserved(shown);
    }

    /// A free slot shows an area.
    fn add<R: Wait>(&mut self, rt: &R, new: &Record)
        requires can { CanChange self.old }
        requires new { IsValid new.now }
        requires free { 0 < length self.old.slots.free }
        requires room { vec_len self.old.moved < vec_capacity self.old.moved }
        ensures { (tree : ℕ) → Carries self.old self.new (Add new.now) tree }
    {
        let Some(slot) = self.slots.take() else {
            unreachable!()
        };
        let row = pack(new);
        write_slot(rt, &self.table, &mut self.writer, slot, row);
        self.moved.push_reserved(ShownArea {
            slot: slot.0,
            area: *new,
        });
    }
}
