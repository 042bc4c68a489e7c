ghost use Rattle.std.specs.Prelude.{◌≡◌, ◌<◌, ◌≤◌, ◌+◌, ◌-◌, ◌++◌, true, ℕ, List, length, replicate, max, vec_capacity};
ghost use Rattle.grace_core.specs.Core.{is_free_row};
ghost use Rattle.maple_node.specs.Roots.{FitsRoot};
ghost use Rattle.node_slots.specs.Trees.{IsShown, empty_row};
ghost use Rattle.node_slots.specs.Plays.{RowsExist};
ghost use Rattle.node_slots.specs.Views.{node_store_at, fill_at, named_tree, publish_at, scan_at, scan_from};
ghost use Rattle.node_slots.specs.Seats.{SitsAt, seat_sight};
ghost use Rattle.node_slots.specs.Internal.Stores.{store_four_at};

use crate::places::{pin_place, word_place};
use crate::rule::{Published, Scanned, Stored};
use crate::seats::{NodeTable, NodeWriterSeat};
use maple_node::{NODE_WORDS, Root, pack_root};
use mm_types::Row;

/// Adds rows of zeros until there are so many rows.
fn add_empty(words: &mut Vec<[u64; 32]>, count: usize)
    requires room { count ≤ vec_capacity words.old }
    ensures items { words.new.items ≡ words.old.items ++ replicate (count - length words.old.items) empty_row }
    ensures room { vec_capacity words.new ≡ vec_capacity words.old }
{
    for _row in words.len()..count {
        words.push_reserved([0; NODE_WORDS]);
    }
}

impl NodeWriterSeat {
    /// Stores a word of a free row, where the table does not have it there already.
    fn store_word(&mut self, row: Row, place: usize, word: u64)
        requires row { row.0 < length self.old.words.items }
        requires place { place < 32 }
        requires free { is_free_row (seat_sight self.old).known.writer_state row.0 ≡ true }
        ensures view { seat_sight self.new ≡ node_store_at (seat_sight self.old) row.0 place word }
        ensures same { self.new.table ≡ self.old.table }
        ensures count { length self.new.words.items ≡ length self.old.words.items }
    {
        let words = &mut self.words[row.0 as usize];
        if words[place] == word {
            return;
        }
        words[place] = word;
        let nodes = &self.table;
        let at = word_place(nodes.size.readers, row, place);
        nodes.table.shared.store::<Stored>(&mut self.seat, at, word);
    }

    /// Stores four words of a free row from a place on. Most often the table has all of them there already.
    fn store_four(&mut self, row: Row, place: usize, words: &[u64; 32])
        requires row { row.0 < length self.old.words.items }
        requires place { place + 4 ≤ 32 }
        requires free { is_free_row (seat_sight self.old).known.writer_state row.0 ≡ true }
        ensures view { seat_sight self.new ≡ store_four_at (seat_sight self.old) row.0 place words.now }
        ensures same { self.new.table ≡ self.old.table }
        ensures count { length self.new.words.items ≡ length self.old.words.items }
    {
        let old = &self.words[row.0 as usize];
        if old[place] == words[place]
            && old[place + 1] == words[place + 1]
            && old[place + 2] == words[place + 2]
            && old[place + 3] == words[place + 3]
        {
            return;
        }
        self.store_word(row, place, words[place]);
        self.store_word(row, place + 1, words[place + 1]);
        self.store_word(row, place + 2, words[place + 2]);
        self.store_word(row, place + 3, words[place + 3]);
    }

    /// Stores the words of a free row.
    pub(crate) fn fill_row(&mut self, row: Row, words: &[u64; 32])
        requires row { row.0 < self.old.table.size.rows }
        requires free { is_free_row (seat_sight self.old).known.writer_state row.0 ≡ true }
        ensures view { seat_sight self.new ≡ fill_at (seat_sight self.old) row.0 words.now }
        ensures same { self.new.table ≡ self.old.table }
        ensures touched { length self.new.words.items ≡ max (length self.old.words.items) (row.0 + 1) }
    {
        add_empty(&mut self.words, row.0 as usize + 1);
        for part in 0..8 {
            self.store_four(row, 4 * part, words);
        }
    }
}

impl NodeTable {
    /// Stores a root word: its tree is the present one.
    pub(crate) fn publish_root(&self, seat: &mut NodeWriterSeat, root: Root)
        requires table { SitsAt seat.old self.now }
        requires fits { FitsRoot root }
        requires later { (seat_sight seat.old).known.writer_state.tree.number < root.tree }
        requires shown { IsShown (seat_sight seat.old).size.slots (named_tree (seat_sight seat.old).known root) }
        requires exist { RowsExist (seat_sight seat.old).size.rows (named_tree (seat_sight seat.old).known root) }
        ensures table { SitsAt seat.new self.now }
        ensures view { seat_sight seat.new ≡ publish_at (seat_sight seat.old) root }
        ensures same { seat.new.table ≡ seat.old.table }
        ensures words { length seat.new.words.items ≡ length seat.old.words.items }
    {
        let word = pack_root(root);
        self.table
            .shared
            .store::<Published>(&mut seat.seat, 0, word);
        seat.root = root;
    }

    /// Loads a reader's pin, and answers it.
    fn scan_pin(&self, seat: &mut NodeWriterSeat, reader: u32) -> u64
        requires table { SitsAt seat.old self.now }
        requires reader { reader < self.now.size.readers }
        ensures table { SitsAt seat.new self.now }
        ensures view { seat_sight seat.new ≡ scan_at (seat_sight seat.old) reader result }
        ensures same { seat.new.table ≡ seat.old.table }
        ensures words { length seat.new.words.items ≡ length seat.old.words.items }
    {
        let place = pin_place(reader);
        let found = self.table.shared.load::<Scanned>(&mut seat.seat, place);
        let clearing = seat.clearings[reader as usize];
        seat.clearings[reader as usize] = clearing.looked(seat.root.tree, found);
        found
    }

    /// Loads every pin once.
    pub(crate) fn scan_pins(&self, seat: &mut NodeWriterSeat)
        requires { SitsAt seat.old self.now }
        ensures table { SitsAt seat.new self.now }
        ensures view { (pins : List ℕ) × (length pins ≡ self.now.size.readers) × (seat_sight seat.new ≡ scan_from 0 pins (seat_sight seat.old)) }
        ensures same { seat.new.table ≡ seat.old.table }
        ensures words { length seat.new.words.items ≡ length seat.old.words.items }
    {
        for reader in 0..self.size.readers {
            self.scan_pin(seat, reader);
        }
    }
}
