//! The state behind the mmap lock.
ghost use Rattle.std.specs.Prelude.{◌≡◌, ◌≤◌, ◌<◌, ◌+◌, ◌/◌, ◌%◌, ◌^◌, ◌++◌, ◌∷◌, [], ℕ, false, IfOk, All, length, replicate, None};
ghost use Rattle.mm_types.specs.declared.area.Access.{Access};
ghost use Rattle.mm_types.specs.declared.area.Page.{Page};
ghost use Rattle.mm_types.specs.Config.{IsValidConfig};
ghost use Rattle.area_rules.specs.Journals.{calls_by};
ghost use Rattle.area_rules.specs.Steps.{IsLegalJournal};
ghost use Rattle.area_rules.specs.Growing.{grows};
ghost use Rattle.area_rules.specs.Verdicts.{verdict};
ghost use Rattle.lock_core.specs.declared.stage.Stage.TheVariants.{Out};
ghost use Rattle.lock_core.specs.Core.{free_slot, StartsWith};
ghost use Rattle.lock_core.specs.Rows.{Exactly};
ghost use Rattle.vma_lock.specs.Views.{slot_count, opened_lock_view, look_at};
ghost use Rattle.area_tree.specs.SpanTrees.{IsFreshWriter};
ghost use Rattle.vma_lock.specs.Seats.{lock_view, seen, stage, lock_sight, HasTurn};

use crate::store::AreaStore;
use mm_types::{Access, AreaList, Call, Config, Counters, Entry, NoMemory, Page, Reply, Verdict};
use node_slots::NodeWriter;
use split_merge::Plan;
use std::alloc::Global;
use std::marker::Model;
use std::sync::Wait;
use sys_calls::plan_call;
use sys_map::{grows, verdict};
use vma_lock::{ReaderSeat, WriterSeat};

/// The state behind the mmap lock. All memory of its calls is taken when it is made.
#[derive(Drop)]
pub struct MmState {
    config: Config,
    store: AreaStore,
    counters: Counters,
    /// Empty between two calls.
    plan: Plan,
    journal: Vec<Entry>,
    /// For how many entries there is room.
    room: u64,
}

impl Model for MmState {
    ghost use Rattle.mm_state.specs.States.{StateView};

    ghost Value = { StateView };

    ghost use Rattle.mm_state.specs.Kept.{state_of, IsState};

    ghost view = { state_of };

    ghost invariant = { IsState };
}

impl MmState {
    ghost use Rattle.mm_state.specs.States.{list_of, ArePairsOf, Enters};

    /// The state of a new table, of which the writer is given, with room for so many entries. Its trees stand in a new table of
    /// nodes, of which the writer is given: it has the rows and the slots for so many areas.
    pub fn new(
        alloc: Global,
        config: Config,
        entries: u64,
        writer: WriterSeat,
        nodes: NodeWriter,
    ) -> Result<MmState, NoMemory>
        requires config { IsValidConfig config }
        requires entries { entries ≤ 2 ^ 31 }
        requires fresh { (readers : ℕ) × (lock_sight writer ≡ opened_lock_view config readers) }
        requires nodes { IsFreshWriter config.areas nodes }
        ensures { IfOk result (λ state. state ≡ record {
          table = writer.seat.table_id;
          config = config;
          seq = 2;
          turn = None;
          slots = replicate (slot_count config) free_slot;
          left = [];
          journal = [];
          room = entries;
          nodes = nodes.writer_state.seat.table_id;
          number = 0;
          published = 0;
          pairs = [];
          elapsed = 0;
        }) }
    {
        let store = AreaStore::new(alloc, &config, writer, nodes)?;
        let plan = Plan::with_room(alloc, config.areas)?;
        let journal = Vec::with_capacity(alloc, entries as usize)?;
        let counters = Counters::opening(&config);
        Ok(MmState {
            config,
            store,
            counters,
            plan,
            journal,
            room: entries,
        })
    }

    /// Makes a call with the turn of a reader that holds no slot, and enters it in the journal. Waits for the readers of
    /// the slots whose areas change, and before it begins for those of trees whose nodes and slots it needs again. Publishes the
    /// tree of spans and slots after the call between the beginning and the end of its sequence. The reader has then seen the whole journal, and has its turn again.
    pub fn apply<R: Wait>(&mut self, rt: &R, seat: &mut ReaderSeat, call: &Call) -> Reply
        requires room { length self.old.journal < self.old.room }
        requires table { seat.old.seat.table_id ≡ self.old.table }
        requires turn { HasTurn seat.old }
        requires free { stage seat.old ≡ Out }
        ensures table { seat.new.seat.table_id ≡ self.old.table }
        ensures enters { Enters self.old self.new (lock_view seat.old).caller call.now result }
        // the seat has then seen the whole journal, by one look more, and has its turn again
        ensures view { (found : ℕ) × (found / 2 ≡ length self.new.journal + 1) × (lock_view seat.new ≡ look_at (lock_view seat.old) found self.new.journal Out) }
        // what it had seen lies before this entry, and no entry between is of its caller
        ensures later { StartsWith self.old.journal (seen seat.old) }
        ensures own { calls_by (lock_view seat.old).caller self.old.journal ≡ calls_by (lock_view seat.old).caller (seen seat.old) }
    {
        let called = plan_call(
            &self.config,
            self.counters,
            &self.store.areas,
            call,
            &mut self.plan,
        );
        let entry = Entry {
            caller: seat.caller(),
            call: *call,
            reply: called.reply,
        };
        self.store.enter(rt, seat, self.plan.changes(), entry);
        self.plan.clear();
        self.counters = called.counters;
        self.journal.push_reserved(entry);
        called.reply
    }

    /// Makes a call of nobody who has a seat, and enters it in the journal. It waits as `apply` does.
    pub fn apply_before<R: Wait>(&mut self, rt: &R, caller: u32, call: &Call) -> Reply
        requires room { length self.old.journal < self.old.room }
        requires nobody { 64 ≤ caller }
        ensures { Enters self.old self.new caller call.now result }
    {
        let called = plan_call(
            &self.config,
            self.counters,
            &self.store.areas,
            call,
            &mut self.plan,
        );
        let entry = Entry {
            caller,
            call: *call,
            reply: called.reply,
        };
        self.store.carry_out(rt, self.plan.changes(), entry);
        self.plan.clear();
        self.counters = called.counters;
        self.journal.push_reserved(entry);
        called.reply
    }

    /// A reader that holds no slot sees the whole journal, by one look.
    pub fn meet(&mut self, seat: &mut ReaderSeat)
        requires table { seat.old.seat.table_id ≡ self.old.table }
        requires free { stage seat.old ≡ Out }
        ensures table { seat.new.seat.table_id ≡ self.old.table }
        ensures same { self.new ≡ self.old }
        ensures view { (found : ℕ) × (found / 2 ≡ length self.old.journal + 1) × (lock_view seat.new ≡ look_at (lock_view seat.old) found self.old.journal Out) }
        ensures later { StartsWith self.old.journal (seen seat.old) }
        ensures own { HasTurn seat.old → calls_by (lock_view seat.old).caller self.old.journal ≡ calls_by (lock_view seat.old).caller (seen seat.old) }
    {
        self.store.meet(seat);
    }

    /// Whether a fault grows an area, which only a call may do.
    pub fn grows(&self, page: Page, access: Access) -> bool
        ensures { result ≡ grows self.now.config (list_of self.now) page.0 access }
    {
        grows(&self.config, &self.store.areas, page, access)
    }

    /// The verdict on a fault that grows no area.
    pub fn verdict(&self, page: Page, access: Access) -> Verdict
        requires { grows self.now.config (list_of self.now) page.0 access ≡ false }
        ensures { result ≡ verdict self.now.config (list_of self.now) page.0 access }
    {
        verdict(&self.config, &self.store.areas, page, access)
    }

    /// How many entries the journal has.
    pub fn version(&self) -> u64
        ensures { result ≡ length self.now.journal }
    {
        self.journal.len() as u64
    }

    /// A copy of the list of areas.
    pub fn copy_list(&self, alloc: Global) -> Result<AreaList, NoMemory>
        ensures { IfOk result (λ list. list ≡ list_of self.now) }
    {
        self.store.areas.copy_list(alloc)
    }

    /// Hands the journal and the list out.
    pub fn finish(self) -> (Vec<Entry>, AreaList)
        ensures journal { result.0.items ≡ self.journal }
        ensures list { result.1 ≡ list_of self }
        ensures legal { IsLegalJournal self.config self.journal }
    {
        let store = self.store;
        (self.journal, store.areas.into_list())
    }

    /// What the type keeps: no call is open and the writer has no turn, the journal is legal, and within its room, and the rows show
    /// exactly its list. The present tree is that of the journal, and its pairs are those of the areas in order, each with the slot
    /// that shows its area. Slots left with trees up to the present one.
    pub fn facts(&self)
        ensures even { self.now.seq % 2 ≡ 0 }
        ensures turn { self.now.turn ≡ None }
        ensures legal { IsLegalJournal self.now.config self.now.journal }
        ensures room { length self.now.journal ≤ self.now.room }
        ensures rows { Exactly self.now.slots (list_of self.now) }
        ensures tree { self.now.number ≡ length self.now.journal }
        ensures pairs { ArePairsOf self.now.slots (list_of self.now) self.now.pairs }
        ensures left { All (λ leaving. leaving.tree ≤ self.now.number) self.now.left }
    {
        self.store.areas.facts();
    }
}
