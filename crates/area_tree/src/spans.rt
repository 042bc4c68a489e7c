//! The tree of spans and slots.
ghost use Rattle.std.specs.Prelude.{◌≡◌, ◌≤◌, ◌<◌, ◌+◌, ◌-◌, ◌^◌, ◌++◌, ◌∷◌, ℕ, true, false, nat_eq, List, [], length, IfOk};
ghost use Rattle.mm_types.specs.declared.config.TheConstants.{MOST_AREAS};
ghost use Rattle.mm_types.specs.Config.{slots_for};
ghost use Rattle.maple_node.specs.Words.{slot_word};
ghost use Rattle.maple_node.specs.Pairs.{overwritten};
ghost use Rattle.node_slots.specs.Seats.{pins_of, free_of, AreOut};
ghost use Rattle.vma_lock.specs.Seats.{HasOpenCall, journal, lock_sight};
ghost use Rattle.area_tree.specs.SpanTrees.{IsFreshWriter, ArePairs, AreTries, enough};

mod searching;

use crate::tally::{Tally, scan_once};
use crate::waiting::wait_for_rows;
use maple_write::{publish_tree, store};
use mm_types::{NoMemory, Page, Slot, Span};
use node_slots::{MayCount, NodeTable, NodeWriter, Tree};
use std::marker::Model;
use std::sync::Wait;
use vma_lock::WriterSeat;

/// A tree of spans and slots in a table of rows, with the one writer of the table. It is changed by stores, and shown to readers
/// whole by a publish.
#[derive(Drop)]
pub struct SpanTree {
    nodes: NodeTable,
    writer: NodeWriter,
    tree: Tree,
    /// The most pairs that it may have.
    areas: u32,
    /// The number of the present tree.
    number: u64,
    /// Whether something was stored since the last publish.
    changed: bool,
    /// Whether enough rows are free for all stores up to the next publish.
    roomy: bool,
    /// How many rows were free before each scan, or what its caller had counted.
    tally: Tally,
    /// At which sequence of the lock the present tree was published; 0 for tree 0.
    published: u64,
}

impl Model for SpanTree {
    ghost use Rattle.area_tree.specs.SpanTrees.{SpanView};

    ghost Value = { SpanView };

    ghost use Rattle.area_tree.specs.SpanKept.{span_view, IsSpanTree};

    ghost view = { span_view };

    ghost invariant = { IsSpanTree };
}

impl SpanTree {
    /// The tree of a table that was just made, of which the writer is given: it has no pairs yet, may have at most so many, from 1
    /// to 65,530, and its pages end at the limit. The table has the rows and slots that are for so many areas.
    pub fn new(areas: u32, limit: Page, writer: NodeWriter) -> Result<SpanTree, NoMemory>
        requires areas { (1 ≤ areas) × (areas ≤ MOST_AREAS) }
        requires limit { 0 < limit.0 }
        requires fresh { IsFreshWriter areas writer }
        ensures { IfOk result (λ tree. tree ≡ record {
          table = writer.writer_state.seat.table_id;
          areas = areas;
          limit = limit.0;
          number = 0;
          published = 0;
          elapsed = 0;
          pairs = [];
          shown = [];
          changed = false;
          roomy = false;
          scans = 0;
          found = [];
          pins = pins_of writer;
          free = length (free_of writer);
        }) }
    {
        let nodes = writer.table()?;
        Ok(SpanTree {
            nodes,
            writer,
            tree: Tree::new(limit),
            areas,
            number: 0,
            changed: false,
            roomy: false,
            tally: Tally::new(),
            published: 0,
        })
    }

    /// Scans until enough rows are free for all stores up to the next publish, and no more then. It waits for readers alone: once
    /// none is inside, enough are. Where tree 0 is present, which has no entries, a tree of one gap is built.
    pub fn prepare<R: Wait>(&mut self, rt: &R, may: MayCount)
        requires { self.old.changed ≡ false }
        ensures view { self.new ≡ record self.old { changed = nat_eq self.old.number 0; roomy = true; elapsed = self.new.elapsed; scans = self.new.scans; found = self.new.found; pins = self.new.pins; free = self.new.free } }
        ensures elapsed { self.old.elapsed ≤ self.new.elapsed }
        ensures shown { self.old.shown ≡ self.old.pairs }
        ensures readers { length self.new.pins ≡ length self.old.pins }
        // each pin is looked at once, and once more for each try after the first, before which too few rows were free
        ensures scans { (tries : List ℕ) × AreTries (enough self.old.areas) self.old self.new tries }
        // and just once where enough rows are free already
        ensures once { enough self.old.areas ≤ self.old.free → self.new.scans ≡ self.old.scans + length self.old.pins }
    {
        // A tree of n areas has at most 4 n / 9 + 9 rows, which is below n / 2 + 9, and a store needs 40 more. The head of the crate counts them.
        wait_for_rows(
            rt,
            &self.nodes,
            &mut self.writer,
            &mut self.tally,
            self.areas / 2 + 60,
        );
        if self.number == 0 {
            let pages = Span {
                lo: 0,
                hi: self.tree.limit.0,
            };
            store(
                &self.nodes,
                &mut self.writer,
                may,
                &mut self.tree,
                pages,
                None,
            );
            self.changed = true;
        }
        self.roomy = true;
    }

    /// Stores a slot for the pages of a span, or none, in the place of what they had. Takes no memory, and cannot be refused.
    pub fn store(&mut self, may: MayCount, span: Span, slot: Option<Slot>)
        requires roomy { self.old.roomy ≡ true }
        requires span { (span.lo < span.hi) × (span.hi ≤ self.old.limit) }
        requires slot { slot_word slot ≤ slots_for self.old.areas }
        requires few { length (overwritten span.lo span.hi (slot_word slot) self.old.pairs) ≤ self.old.areas }
        ensures { self.new ≡ record self.old { pairs = overwritten span.lo span.hi (slot_word slot) self.old.pairs; changed = true; free = self.new.free } }
    {
        store(
            &self.nodes,
            &mut self.writer,
            may,
            &mut self.tree,
            span,
            slot,
        );
        self.changed = true;
    }

    /// Publishes the tree in the open call of the lock's writer: it is the present one, with the next number. So many calls ended before
    /// this one as trees were published, so none is published twice in a call, and none between two calls.
    pub fn publish(&mut self, writer: &WriterSeat)
        requires call { HasOpenCall writer.now × (length (journal writer.now) ≡ self.old.number) }
        requires roomy { self.old.roomy ≡ true }
        requires number { self.old.number < 2 ^ 40 - 1 }
        ensures view { self.new ≡ record self.old {
          number = self.old.number + 1;
          published = (lock_sight writer.now).writer_state.seq;
          shown = self.old.pairs;
          changed = false;
          roomy = false;
          elapsed = self.new.elapsed;
        } }
        ensures elapsed { self.old.elapsed ≤ self.new.elapsed }
        ensures few { length self.new.shown ≤ self.new.areas }
        ensures pairs { ArePairs (slots_for self.new.areas) self.new.limit 0 self.new.shown }
    {
        publish_tree(&self.nodes, &mut self.writer, &self.tree);
        self.number += 1;
        self.published = writer.sequence();
        self.changed = false;
        self.roomy = false;
    }

    /// The greatest tree, at most the present one, such that no row waits that left at its publish or before.
    pub fn elapsed(&self) -> u64
        ensures elapsed { result ≡ self.now.elapsed }
        ensures most { result ≤ self.now.number }
    {
        self.nodes.settled(&self.writer)
    }

    /// What the type keeps: the pairs stand in order, with no page in common, up to the limit, and are no more than may be.
    pub fn facts(&self)
        ensures pairs { ArePairs (slots_for self.now.areas) self.now.limit 0 self.now.pairs }
        ensures few { length self.now.pairs ≤ self.now.areas }
        ensures readers { 1 ≤ length self.now.pins }
    {
        let _areas = self.areas;
    }

    /// Looks at the pin of each reader once: rows that no reader may read any more are free again. It notes how many of what it is for the
    /// caller had before.
    pub fn scan(&mut self, count: usize)
        ensures view { self.new ≡ record self.old { elapsed = self.new.elapsed; scans = self.old.scans + length self.old.pins; found = self.old.found ++ count ∷ []; pins = self.new.pins; free = self.new.free } }
        ensures elapsed { self.old.elapsed ≤ self.new.elapsed }
        ensures readers { length self.new.pins ≡ length self.old.pins }
        // once it finds every reader closed, every tree's grace period has elapsed
        ensures gone { AreOut self.new.pins → self.new.elapsed ≡ self.new.number }
    {
        scan_once(&self.nodes, &mut self.writer, &mut self.tally, count);
    }
}
