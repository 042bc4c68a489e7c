ghost use Rattle.std.specs.Prelude.{◌≡◌, ◌<◌, ◌-◌, ◌^◌, min, slice_index, Some};
ghost use Rattle.grace_core.specs.Core.{row_at};
ghost use Rattle.node_slots.specs.declared.view.ShownTree.{ShownTree};
ghost use Rattle.node_slots.specs.Trees.{IsShown};
ghost use Rattle.node_slots.specs.Plays.{RowsExist};
ghost use Rattle.node_slots.specs.Views.{open_at, root_at, word_at, close_at, node_joined_at};
ghost use Rattle.node_slots.specs.Seats.{IsOfNodeTable, node_view, IsOpen, IsClosed, ShowsRow};

use crate::places::{pin_place, word_place};
use crate::rule::{Joined, Loaded, Opened, ReaderClosed, WordRead};
use crate::seats::{NodeSeat, NodeTable};
use maple_node::{Root, unpack_root};
use mm_types::Row;

impl NodeSeat {
    /// How many roots it loaded, or 2^64 - 1 where it loaded more.
    pub fn walks(&self) -> u64
        ensures { result ≡ min (node_view self.now).walks (2 ^ 64 - 1) }
    {
        self.walks
    }
}

impl NodeTable {
    /// Opens a reader: from its next root load on, the rows of the loaded tree keep their words until it closes.
    pub fn open(&self, seat: &mut NodeSeat)
        requires table { IsOfNodeTable seat.old self.now }
        requires closed { IsClosed seat.old }
        ensures table { IsOfNodeTable seat.new self.now }
        ensures open { IsOpen seat.new }
        ensures view { node_view seat.new ≡ open_at (node_view seat.old) }
    {
        let place = pin_place(seat.reader);
        self.table
            .shared
            .fetch_add::<Opened>(&mut seat.seat, place, 1);
    }

    /// Loads the root of the present tree, which is the reader's snapshot from then on. The tree meets the layout and has at most
    /// nine levels, and its rows exist.
    pub fn root(&self, seat: &mut NodeSeat) -> Root
        requires table { IsOfNodeTable seat.old self.now }
        requires open { IsOpen seat.old }
        ensures table { IsOfNodeTable seat.new self.now }
        ensures shown { (shown : ShownTree) × (shown.root ≡ result) × IsShown (node_view seat.old).size.slots shown
            × RowsExist (node_view seat.old).size.rows shown × (node_view seat.new ≡ root_at (node_view seat.old) shown) }
    {
        let found = self.table.shared.load::<Loaded>(&mut seat.seat, 0);
        seat.walks = seat.walks.saturating_add(1);
        unpack_root(found)
    }

    /// Loads a word of a row of the reader's snapshot: the word that it had when the tree was published.
    pub fn word(&self, seat: &mut NodeSeat, row: Row, place: u32) -> u64
        requires table { IsOfNodeTable seat.old self.now }
        requires shown { ShowsRow (node_view seat.old) row.0 }
        requires place { place < 32 }
        ensures table { IsOfNodeTable seat.new self.now }
        ensures word { (shown : ShownTree) → (node_view seat.old).snapshot ≡ Some shown → result ≡ slice_index (row_at shown.words row.0) place }
        ensures view { node_view seat.new ≡ word_at (node_view seat.old) }
    {
        let place = word_place(self.size.readers, row, place as usize);
        self.table.shared.load::<WordRead>(&mut seat.seat, place)
    }

    /// Closes a reader: its snapshot ends.
    pub fn close(&self, seat: &mut NodeSeat)
        requires table { IsOfNodeTable seat.old self.now }
        requires open { IsOpen seat.old }
        ensures table { IsOfNodeTable seat.new self.now }
        ensures closed { IsClosed seat.new }
        ensures view { node_view seat.new ≡ close_at (node_view seat.old) }
    {
        let place = pin_place(seat.reader);
        self.table
            .shared
            .fetch_add::<ReaderClosed>(&mut seat.seat, place, 1);
    }

    /// Joins another reader into one. The other's pin stays even for ever.
    pub fn join(&self, seat: &mut NodeSeat, other: NodeSeat)
        requires tables { IsOfNodeTable seat.old self.now × IsOfNodeTable other self.now }
        requires closed { IsClosed seat.old × IsClosed other }
        ensures table { IsOfNodeTable seat.new self.now }
        ensures view { node_view seat.new ≡ node_joined_at (node_view seat.old) }
    {
        let NodeSeat {
            seat: taken,
            reader: _,
            walks: _,
        } = other;
        self.table.shared.join_seat::<Joined>(&mut seat.seat, taken);
    }
}
