//! The view of an address space's tables that all callers share.
ghost use Rattle.std.specs.Prelude.{ℕ, ◌≡◌, ◌≤◌, IfOk, IfErr, length, sum, slice_get, Some};
ghost use Rattle.mm_types.specs.Config.{IsValidConfig};
ghost use Rattle.lock_core.specs.Events.{longer};
ghost use Rattle.vma_lock.specs.declared.seats.ReaderSeat.{ReaderSeat as Reader};
ghost use Rattle.vma_lock.specs.Views.{opened_lock_view, new_lock_reader};
ghost use Rattle.vma_lock.specs.Seats.{vma_table_id, IsOfVmaTable, lock_sight, lock_view};
ghost use Rattle.node_slots.specs.declared.seats.NodeSeat.{NodeSeat as Walker};
ghost use Rattle.node_slots.specs.Views.{reader_view, node_joined_at};
ghost use Rattle.node_slots.specs.Seats as node_seats;
ghost use Rattle.fault_path.specs.Passes.{caller, seen_by, looks_of, made_by, node_size, walker, SitsAtTables, IsLater, AreFresh, AreUnused, IsNewWriter};
ghost use Rattle.fault_path.specs.Faults.{WalksOnce, IsFast, Misses};
ghost use Rattle.fault_path.specs.Holding.{Locks, StaysAlike};

use crate::fast::{Fast, Miss};
use crate::held::Held;
use crate::locking::lock_page;
use crate::pass::{Pass, Rest};
use area_rules::area_verdict;
use mm_types::{Access, Config, NoMemory, Page, Seen, rows_for, slots_for};
use node_slots::{FirstWords, NodeSeat, NodeTable, NodeWriter};
use std::alloc::Global;
use std::marker::Model;
use vma_lock::{FIRST_SEQ, ReaderSeat, VmaTable, WriterSeat, word_count};

/// The tables of an address space as callers see them: the areas with their locks, and the nodes of the tree of areas. Callers
/// share it by reference.
#[derive(Drop)]
pub struct FaultView {
    pub(crate) table: VmaTable,
    pub(crate) nodes: NodeTable,
    config: Config,
}

impl Model for FaultView {
    ghost use Rattle.vma_lock.specs.Seats.{vma_table_id, table_config};
    ghost use Rattle.node_slots.specs.Seats.{size_of};
    ghost use Rattle.node_slots.specs.Seats as node_seats;
    ghost use Rattle.fault_path.specs.Passes.{ViewedTable, IsViewed};

    ghost Value = { ViewedTable };

    ghost view = { λ v. record {
      table = vma_table_id v.table;
      nodes = node_seats.node_table_id v.nodes;
      config = table_config v.table;
      callers = (size_of v.nodes).readers;
    } };

    ghost invariant = { λ v. IsViewed (table_config v.table) (size_of v.nodes) v.config };
}

impl FaultView {
    /// Makes both tables with their writers and a pass for each caller, in order, with as many operations as are given for it.
    /// There are 1 to 64 callers, with at most 16,777,216 operations together. Refused only where memory runs out.
    pub fn make(
        alloc: Global,
        config: &Config,
        operations: &[u64],
    ) -> Result<(FaultView, Vec<Pass>, WriterSeat, NodeWriter), NoMemory>
        requires config { IsValidConfig config.now }
        requires callers { (1 ≤ length operations.now) × (length operations.now ≤ 64) }
        requires few { sum operations.now ≤ 16777216 }
        ensures view { IfOk result (λ made. made.0 ≡ record {
          table = made.2.seat.table_id;
          nodes = made.3.writer_state.seat.table_id;
          config = config.now;
          callers = length operations.now;
        }) }
        ensures writer { IfOk result (λ made. lock_sight made.2 ≡ opened_lock_view config.now (length operations.now)) }
        ensures nodes { IfOk result (λ made. IsNewWriter config.now (length operations.now) made.3) }
        ensures passes { IfOk result (λ made. AreFresh made.0 operations.now made.1.items) }
        ensures unused { IfOk result (λ made. AreUnused made.1.items) }
    {
        let callers = operations.len() as u32;
        let (rows, slots) = (rows_for(config.areas), slots_for(config.areas));
        // both tables are copied from the same words, which are dropped then
        let mut words = FirstWords::new(alloc, rows)?;
        words.set_first(FIRST_SEQ);
        let first = words.take(word_count(config));
        let (table, writer, seats) = VmaTable::of_words(alloc, first, config, callers)?;
        let (nodes, node_writer, walkers) = NodeTable::of_words(
            alloc, words, rows, slots, callers,
        )?;
        let passes = passes_of(alloc, &table, &nodes, config, seats, walkers, operations)?;
        let config = config.copy(alloc)?;
        let view = FaultView {
            table,
            nodes,
            config,
        };
        Ok((view, passes, writer, node_writer))
    }

    /// A fault without the lock: it waits for nobody. It walks the tree that is present, counts its caller in the slot that the
    /// tree pairs with the page, looks at the sequence, and reads the slot's row, unless a call has marked it. An answer is the
    /// verdict of the area in the row, over the list at the look. Else the fault missed, and has to take the lock.
    pub fn fault_fast(&self, pass: &mut Pass, page: Page, access: Access) -> Fast
        requires { SitsAtTables self.now pass.old }
        ensures later { IsLater pass.old pass.new }
        ensures same { pass.new ≡ record pass.old { reader = pass.new.reader; nodes = pass.new.nodes } }
        ensures own { made_by pass.new ≡ made_by pass.old }
        ensures walk { WalksOnce (walker pass.old) (walker pass.new) }
        ensures fast { IsFast page.0 access pass.old pass.new result }
    {
        pass.facts();
        match lock_page(
            &self.table,
            &self.nodes,
            &mut pass.reader,
            &mut pass.rest.nodes,
            page,
        ) {
            Ok(area) => {
                self.table.sub(&mut pass.reader);
                Fast::Answer {
                    verdict: area_verdict(self.config.files.items(), page.0, access, &area),
                    version: pass.reader.version(),
                }
            }
            Err(miss) => Fast::Miss(miss),
        }
    }

    /// Locks the area that the tree that is present has at a page, without the lock: the area is held until it is unlocked. It
    /// waits for nobody. A miss hands the pass back.
    pub fn read_lock(&self, pass: Pass, page: Page) -> Result<Held<'_>, (Pass, Miss)>
        requires { SitsAtTables self.now pass }
        ensures held { IfOk result (λ held. Locks page.0 pass held) }
        ensures missed { IfErr result (λ back. StaysAlike pass back.0 × WalksOnce (walker pass) (walker back.0) × Misses page.0 pass back.0 back.1) }
    {
        let Pass {
            mut reader,
            unlocked,
            mut rest,
        } = pass;
        match lock_page(&self.table, &self.nodes, &mut reader, &mut rest.nodes, page) {
            Ok(area) => Ok(Held {
                table: &self.table,
                area,
                reader,
                unlocked,
                rest,
            }),
            Err(miss) => {
                let pass = Pass {
                    reader,
                    unlocked,
                    rest,
                };
                Err((pass, miss))
            }
        }
    }

    /// Joins another pass of these tables into one, both its seats, which has then seen the longer of both lists. Hands the other's log
    /// out; its operations that are left and its turn end, and its pin is closed for ever.
    pub fn join(&self, into: &mut Pass, other: Pass) -> Vec<Seen>
        requires { SitsAtTables self.now into.old × SitsAtTables self.now other }
        ensures later { IsLater into.old into.new }
        ensures seen { seen_by into.new ≡ longer (seen_by into.old) (seen_by other) }
        ensures looks { looks_of into.new ≡ looks_of into.old }
        ensures walker { walker into.new ≡ node_joined_at (walker into.old) }
        ensures same { into.new ≡ record into.old { reader = into.new.reader; nodes = into.new.nodes } }
        ensures log { result.items ≡ other.log }
    {
        into.facts();
        other.facts();
        let Pass {
            reader,
            unlocked: _,
            rest,
        } = other;
        let Rest {
            nodes,
            log,
            left: _,
            operations: _,
        } = rest;
        self.table.join(&mut into.reader, reader);
        self.nodes.join(&mut into.rest.nodes, nodes);
        log
    }
}

/// A pass for each caller of new tables, in order, with as many operations as are given for it.
fn passes_of(
    alloc: Global,
    table: &VmaTable,
    nodes: &NodeTable,
    config: &Config,
    seats: Vec<ReaderSeat>,
    walkers: Vec<NodeSeat>,
    operations: &[u64],
) -> Result<Vec<Pass>, NoMemory>
    requires all { (length seats.items ≡ length operations.now) × (length walkers.items ≡ length operations.now) }
    requires few { sum operations.now ≤ 16777216 }
    requires fresh { (place : ℕ) (seat : Reader) → slice_get seats.items place ≡ Some seat
        → IsOfVmaTable seat table.now × (lock_view seat ≡ new_lock_reader (opened_lock_view config.now place)) }
    requires walkers { (place : ℕ) (seat : Walker) → slice_get walkers.items place ≡ Some seat
        → node_seats.IsOfNodeTable seat nodes.now
        × (node_seats.node_view seat ≡ reader_view (node_size config.now (length operations.now)) place) }
    ensures fresh { IfOk result (λ passes. AreFresh (record {
      table = vma_table_id table.now;
      nodes = node_seats.node_table_id nodes.now;
      config = config.now;
      callers = length operations.now;
    }) operations.now passes.items) }
    ensures unused { IfOk result (λ passes. AreUnused passes.items) }
{
    let mut passes = Vec::with_capacity(alloc, operations.len())?;
    let mut walkers = walkers.into_iter();
    for reader in seats {
        let walker = walkers.next().unwrap();
        let count = operations[passes.len()];
        passes.push(Pass::new(alloc, reader, walker, count)?)?;
    }
    Ok(passes)
}
