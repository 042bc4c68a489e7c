ghost use Rattle.std.specs.Prelude.{◌≡◌, ◌≤◌, ◌<◌, ◌+◌, ◌-◌, ◌^◌, ℕ, min, max, true, false, nat_eq, if◌then◌else◌, List, [], ◌∷◌, ◌++◌, length, slice_set, MatchOption, IfSome, OnSome, IfOk};
ghost use Rattle.std.specs.List.Sorted.{IsPermutation};
ghost use Rattle.grace_core.specs.Core.{since_at, times};
ghost use Rattle.grace_core.specs.Steps.{cleared_up_to};
ghost use Rattle.maple_node.specs.Levels.{at_of};
ghost use Rattle.maple_node.specs.Trees.{tree_of, IsLayout};
ghost use Rattle.node_slots.specs.Views.{fill_at, publish_at, scan_from};
ghost use Rattle.node_slots.specs.Kept.{left_at, number_at, replaced_of};
ghost use Rattle.node_slots.specs.Built.{words_at};
ghost use Rattle.node_slots.specs.Choosing.{IsNearest, takes_fresh, touched};
ghost use Rattle.node_slots.specs.Seats.{size_of, WritesNodeTable, StaysAt, node_sight, writer_state, row_count, free_of, retired_rows, is_present, is_waiting, is_kept, is_taken_row, one_where, next_root, next_shown, pins_of, AreOut, ReachesNewRows};

use crate::choosing::{note_replaced, note_spot};
use crate::left::Left;
use crate::reads::Reads;
use crate::seats::{NodeTable, NodeWriter};
use grace_core::least;
use maple_node::{NODE_WORDS, Root};
use mm_types::{NoMemory, Row};
use std::sync::Arc;

/// The words of a row that was never filled.
static EMPTY_ROW: [u64; NODE_WORDS] = [0; NODE_WORDS];

impl NodeTable {
    /// Takes the last row of the writer's free list. None exactly where the list is empty.
    pub fn take_row(&self, writer: &mut NodeWriter) -> Option<Row>
        requires table { WritesNodeTable writer.old self.now }
        ensures table { WritesNodeTable writer.new self.now }
        ensures free { MatchOption result ((free_of writer.old ≡ []) × (free_of writer.new ≡ []))
            (λ row. free_of writer.old ≡ free_of writer.new ++ row.0 ∷ []) }
        ensures taken { IfSome result (λ row. is_taken_row writer.new row.0 ≡ true) }
        ensures left { retired_rows writer.new ≡ retired_rows writer.old }
        ensures view { node_sight writer.new ≡ node_sight writer.old }
    {
        writer.take_last()
    }

    /// Stores the words of a row that was taken and is not published.
    pub fn fill(&self, writer: &mut NodeWriter, row: Row, words: &[u64; 32])
        requires table { WritesNodeTable writer.old self.now }
        requires taken { is_taken_row writer.old row.0 ≡ true }
        ensures table { WritesNodeTable writer.new self.now }
        ensures view { node_sight writer.new ≡ fill_at (node_sight writer.old) row.0 words.now }
        ensures lists { (free_of writer.new ≡ free_of writer.old) × (retired_rows writer.new ≡ retired_rows writer.old) }
        ensures touched { touched writer.new ≡ max (touched writer.old) (row.0 + 1) }
    {
        writer.fill(row, words);
    }

    /// Leaves a row of the present tree, or one that was taken and is not published, and that was not left since. A row of the
    /// present tree leaves at the next publish; one that was taken is free at once.
    pub fn leave(&self, writer: &mut NodeWriter, row: Row)
        requires table { WritesNodeTable writer.old self.now }
        requires kept { is_kept writer.old row.0 ≡ true }
        ensures table { WritesNodeTable writer.new self.now }
        ensures view { node_sight writer.new ≡ node_sight writer.old }
        ensures free { free_of writer.new ≡ (if is_present writer.old row.0 then free_of writer.old else free_of writer.old ++ row.0 ∷ []) }
        ensures left { retired_rows writer.new ≡ (if is_present writer.old row.0 then retired_rows writer.old ++ row.0 ∷ [] else retired_rows writer.old) }
    {
        writer.leave(row);
    }

    /// Publishes a tree by its root and height: it is the present one, with the next number. Its rows are those of the present
    /// tree and those that were taken, without those that were left.
    pub fn publish(&self, writer: &mut NodeWriter, root: Row, height: u32)
        requires table { WritesNodeTable writer.old self.now }
        requires height { height ≤ 9 }
        requires number { (writer_state writer.old).tree.number < 2 ^ 40 - 1 }
        requires layout { IsLayout (at_of (writer_state writer.old).words) (node_sight writer.old).size.slots
            (tree_of (at_of (writer_state writer.old).words) (next_root writer.old root.0 height)) }
        requires rows { ReachesNewRows writer.old (next_shown writer.old root.0 height) }
        ensures table { WritesNodeTable writer.new self.now }
        ensures view { node_sight writer.new ≡ publish_at (node_sight writer.old) (next_root writer.old root.0 height) }
        ensures lists { (free_of writer.new ≡ free_of writer.old) × (retired_rows writer.new ≡ retired_rows writer.old) }
    {
        let root = Root {
            tree: writer.writer_state.root.tree + 1,
            height,
            row: root,
        };
        self.publish_root(&mut writer.writer_state, root);
    }

    /// Loads every pin once, and answers how many rows came into the writer's free list: those that were left out by a tree up to
    /// which every reader is cleared.
    pub fn scan(&self, writer: &mut NodeWriter) -> u32
        requires table { WritesNodeTable writer.old self.now }
        ensures table { WritesNodeTable writer.new self.now }
        ensures view { (pins : List ℕ) × (length pins ≡ (size_of self.now).readers) × (node_sight writer.new ≡ scan_from 0 pins (node_sight writer.old)) }
        ensures freed { (rows : List ℕ) × (length rows ≡ result)
            × (free_of writer.new ≡ free_of writer.old ++ rows) × (retired_rows writer.old ≡ rows ++ retired_rows writer.new) }
        ensures rest { (row : ℕ) → is_waiting writer.new row ≡ true
            → cleared_up_to (writer_state writer.new).tree.number (writer_state writer.new).clearings < since_at (writer_state writer.new).since row }
        // once it finds every reader closed, no row waits
        ensures gone { AreOut (pins_of writer.new) → (row : ℕ) → is_waiting writer.new row ≡ false }
    {
        self.scan_pins(&mut writer.writer_state);
        let passed = least(
            writer.writer_state.root.tree,
            writer.writer_state.clearings.as_slice(),
        );
        writer.free_passed(passed)
    }

    /// How many rows are in the writer's free list. Each row of the table is free, was taken, is of the present tree, or waits.
    pub fn free_rows(&self, writer: &NodeWriter) -> u32
        requires table { WritesNodeTable writer.now self.now }
        ensures length { result ≡ length (free_of writer.now) }
        ensures counted { (row : ℕ) → row < row_count writer.now → times row (free_of writer.now) + one_where (is_taken_row writer.now row)
            + one_where (is_present writer.now row) + one_where (is_waiting writer.now row) ≡ 1 }
    {
        writer.free.len() as u32
    }

    /// The words that the table has in a row. Counts one read. Nothing else reads a row for the writer.
    pub fn written<'a>(&self, writer: &'a NodeWriter, row: Row, reads: &mut Reads) -> &'a [u64; 32]
        requires table { WritesNodeTable writer.now self.now }
        requires row { row.0 < row_count writer.now }
        ensures words { result.now ≡ words_at writer.now row.0 }
        ensures reads { reads.new ≡ reads.old + 1 }
    {
        reads.add();
        match writer.writer_state.words.get(row.0 as usize) {
            Some(words) => words,
            None => &EMPTY_ROW,
        }
    }

    /// The greatest tree, at most the present one, such that no row waits that left at its publish or before.
    pub fn settled(&self, writer: &NodeWriter) -> u64
        requires table { WritesNodeTable writer.now self.now }
        ensures most { result ≤ (writer_state writer.now).tree.number }
        ensures none { (row : ℕ) → is_waiting writer.now row ≡ true → result < since_at (writer_state writer.now).since row }
        ensures greatest { (tree : ℕ) → tree ≤ (writer_state writer.now).tree.number
            → ((row : ℕ) → is_waiting writer.now row ≡ true → tree < since_at (writer_state writer.now).since row) → tree ≤ result }
    {
        match writer.left.front() {
            Some(first) => first.since - 1,
            None => writer.writer_state.root.tree,
        }
    }
}

impl NodeWriter {
    /// Another handle of the writer's table.
    pub fn table(&self) -> Result<NodeTable, NoMemory>
        ensures { IfOk result (λ table. WritesNodeTable self.now table) }
    {
        Ok(NodeTable {
            table: Arc::try_clone(&self.writer_state.table.table)?,
            size: self.writer_state.table.size,
        })
    }

    /// The writer's table.
    pub fn nodes(&self) -> &NodeTable
        ensures { WritesNodeTable self.now result.now }
    {
        &self.writer_state.table
    }

    /// Takes the last row of the free list. None exactly where the list is empty.
    fn take_last(&mut self) -> Option<Row>
        ensures table { StaysAt self.old self.new }
        ensures free { MatchOption result ((free_of self.old ≡ []) × (free_of self.new ≡ []))
            (λ row. free_of self.old ≡ free_of self.new ++ row.0 ∷ []) }
        ensures taken { IfSome result (λ row. is_taken_row self.new row.0 ≡ true) }
        ensures left { retired_rows self.new ≡ retired_rows self.old }
        ensures view { node_sight self.new ≡ node_sight self.old }
    {
        let last = self.free.len().checked_sub(1)?;
        Some(self.take_at(last))
    }

    /// Takes the row at a place of the free list, to which the last one comes.
    fn take_at(&mut self, place: usize) -> Row
        requires inside { place < length self.old.free.items }
        requires behind { self.old.fresh ≤ place + 1 }
        ensures writer_state { self.new.writer_state ≡ self.old.writer_state }
        ensures row { result.0 ≡ number_at (free_of self.old) place }
        ensures free { IsPermutation (free_of self.old) (result.0 ∷ free_of self.new) }
        ensures last { place + 1 ≡ length self.old.free.items → free_of self.old ≡ free_of self.new ++ result.0 ∷ [] }
        ensures fresh { self.new.fresh ≡ min self.old.fresh place }
        ensures taken { is_taken_row self.new result.0 ≡ true }
        ensures left { retired_rows self.new ≡ retired_rows self.old }
        ensures replaced { replaced_of self.new.notes.items ≡ replaced_of self.old.notes.items }
    {
        let last = self.free[self.free.len() - 1];
        note_spot(&mut self.notes, last, place);
        let row = self.free.swap_remove_back(place).unwrap();
        self.fresh = self.fresh.min(place);
        self.notes[row.0 as usize].first = self.writer_state.root.tree + 1;
        row
    }

    /// Takes a row for the next version of the node in a row: that row itself, if it was left and is free, or the row that held the
    /// version before it, if that is free, whose words are nearly the same. Else it takes a row that was never taken while few were,
    /// or another free row. None exactly where no row is free.
    pub fn take_row_for(&mut self, old: Row) -> Option<Row>
        ensures table { StaysAt self.old self.new }
        ensures free { MatchOption result ((free_of self.old ≡ []) × (free_of self.new ≡ []))
            (λ row. IsPermutation (free_of self.old) (row.0 ∷ free_of self.new)) }
        ensures nearest { IfSome result (λ row. IsNearest self.old old.0 row.0) }
        ensures fresh { OnSome result (self.new.fresh ≡ self.old.fresh - one_where (takes_fresh self.old old.0)) }
        ensures replaced { IfSome result (λ row. replaced_of self.new.notes.items
            ≡ (if nat_eq row.0 old.0 then replaced_of self.old.notes.items else slice_set (replaced_of self.old.notes.items) row.0 old.0)) }
        ensures taken { IfSome result (λ row. is_taken_row self.new row.0 ≡ true) }
        ensures left { retired_rows self.new ≡ retired_rows self.old }
        ensures view { node_sight self.new ≡ node_sight self.old }
    {
        if self.free.is_empty() {
            return None;
        }
        let place = self.place_for(old);
        let row = self.take_at(place);
        note_replaced(&mut self.notes, row, old);
        Some(row)
    }

    /// Stores the words of a row that was taken and is not published.
    pub fn fill(&mut self, row: Row, words: &[u64; 32])
        requires taken { is_taken_row self.old row.0 ≡ true }
        ensures table { StaysAt self.old self.new }
        ensures view { node_sight self.new ≡ fill_at (node_sight self.old) row.0 words.now }
        ensures lists { (free_of self.new ≡ free_of self.old) × (retired_rows self.new ≡ retired_rows self.old) }
        ensures touched { touched self.new ≡ max (touched self.old) (row.0 + 1) }
    {
        self.writer_state.fill_row(row, words);
    }

    /// Leaves a row of the present tree, or one that was taken and is not published, as `NodeTable::leave` does.
    pub fn leave(&mut self, row: Row)
        requires kept { is_kept self.old row.0 ≡ true }
        ensures table { StaysAt self.old self.new }
        ensures view { node_sight self.new ≡ node_sight self.old }
        ensures free { free_of self.new ≡ (if is_present self.old row.0 then free_of self.old else free_of self.old ++ row.0 ∷ []) }
        ensures left { retired_rows self.new ≡ (if is_present self.old row.0 then retired_rows self.old ++ row.0 ∷ [] else retired_rows self.old) }
    {
        let next = self.writer_state.root.tree + 1;
        if self.notes[row.0 as usize].first < next {
            self.left.push_back_reserved(Left { row, since: next });
        } else {
            let spot = self.free.len();
            note_spot(&mut self.notes, row, spot);
            self.free.push_back_reserved(row);
        }
    }

    /// Frees the rows that were left out by this tree or one before it, and answers how many.
    fn free_passed(&mut self, passed: u64) -> u32
        requires passed { (passed ≤ (writer_state self.old).passed) × (passed ≤ (writer_state self.old).tree.number) }
        ensures writer_state { self.new.writer_state ≡ self.old.writer_state }
        ensures freed { (rows : List ℕ) × (length rows ≡ result)
            × (free_of self.new ≡ free_of self.old ++ rows) × (retired_rows self.old ≡ rows ++ retired_rows self.new) }
        ensures rest { (row : ℕ) → is_waiting self.new row ≡ true → passed < since_at (writer_state self.new).since row }
    {
        let waiting = self.left.len() as u32;
        for count in 0..waiting {
            if !self.free_first(passed) {
                return count;
            }
        }
        waiting
    }

    /// Frees the row that was left first, if it was left out by this tree or one before it. Answers whether it did.
    fn free_first(&mut self, passed: u64) -> bool
        requires passed { (passed ≤ (writer_state self.old).passed) × (passed ≤ (writer_state self.old).tree.number) }
        ensures writer_state { self.new.writer_state ≡ self.old.writer_state }
        ensures freed { result ≡ true → (row : ℕ) × (free_of self.new ≡ free_of self.old ++ row ∷ []) × (retired_rows self.old ≡ row ∷ retired_rows self.new) }
        ensures rest { result ≡ false → (free_of self.new ≡ free_of self.old) × (retired_rows self.new ≡ retired_rows self.old)
            × ((row : ℕ) → is_waiting self.new row ≡ true → passed < since_at (writer_state self.new).since row) }
    {
        if !self.has_passed(passed) {
            return false;
        }
        let first = self.left.pop_front().unwrap();
        let spot = self.free.len();
        note_spot(&mut self.notes, first.row, spot);
        self.free.push_back_reserved(first.row);
        true
    }

    /// Whether some row was left, and the first of them was left out by this tree or one before it.
    fn has_passed(&self, passed: u64) -> bool
        ensures some { result ≡ true → (0 < length self.now.left.items) × ((left_at self.now.left.items 0).since ≤ passed) }
        ensures none { result ≡ false → 0 < length self.now.left.items → passed < (left_at self.now.left.items 0).since }
    {
        match self.left.front() {
            Some(first) => first.since <= passed,
            None => false,
        }
    }
}
