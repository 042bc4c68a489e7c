//! Which free row is taken for the next version of a node. A free row that was taken before is found at the place that is noted for it.

ghost use Rattle.std.specs.Prelude.{◌≡◌, ◌<◌, ◌≤◌, ◌^◌, true, false, slice_set, nat_eq, if◌then◌else◌, length, IfSome, IfNone};
ghost use Rattle.node_slots.specs.Kept.{firsts_of, spots_of, replaced_of, number_at};
ghost use Rattle.node_slots.specs.Choosing.{is_free_again, replaced_by, wants_fresh};
ghost use Rattle.node_slots.specs.Internal.Places.{StandsAt, IsChosen};

use crate::note::RowNote;
use crate::seats::NodeWriter;
use mm_types::Row;

/// Notes where a row comes into the free list.
pub(crate) fn note_spot(notes: &mut Vec<RowNote>, row: Row, spot: usize)
    requires { spot < 2 ^ 32 }
    ensures spots { spots_of notes.new.items ≡ slice_set (spots_of notes.old.items) row.0 spot }
    ensures firsts { firsts_of notes.new.items ≡ firsts_of notes.old.items }
    ensures replaced { replaced_of notes.new.items ≡ replaced_of notes.old.items }
{
    if let Some(note) = notes.get_mut(row.0 as usize) {
        note.spot = spot as u32;
    }
}

/// Notes which row a row replaces, if that is another one.
pub(crate) fn note_replaced(notes: &mut Vec<RowNote>, row: Row, replaced: Row)
    ensures replaced { replaced_of notes.new.items
        ≡ (if nat_eq row.0 replaced.0 then replaced_of notes.old.items else slice_set (replaced_of notes.old.items) row.0 replaced.0) }
    ensures firsts { firsts_of notes.new.items ≡ firsts_of notes.old.items }
    ensures spots { spots_of notes.new.items ≡ spots_of notes.old.items }
{
    if row == replaced {
        return;
    }
    if let Some(note) = notes.get_mut(row.0 as usize) {
        note.replaced = replaced;
    }
}

/// Among how many rows, of those that were taken before, one is taken in turn. In turn, since the place of a row that is taken goes to the row
/// that became free last: the same place twice would take the row of a node that may want it back.
const TURNS: usize = 32;

/// How many more free rows were taken before than twice the rows in use, before no fresh one is taken. With twice as many most nodes find the
/// row of their version before; these more are for a tree of few nodes.
const SPARE: usize = 64;

impl NodeWriter {
    /// The place that is noted for a row.
    fn spot_of(&self, row: Row) -> usize
        ensures { result ≡ number_at (spots_of self.now.notes.items) row.0 }
    {
        match self.notes.get(row.0 as usize) {
            Some(note) => note.spot as usize,
            None => 0,
        }
    }

    /// The row that a row replaced.
    fn replaced_by(&self, row: Row) -> Row
        ensures { result.0 ≡ replaced_by self.now row.0 }
    {
        match self.notes.get(row.0 as usize) {
            Some(note) => note.replaced,
            None => Row(0),
        }
    }

    /// Whether a row stands at a place of the free list, behind the fresh rows.
    fn stands_at(&self, row: Row, place: usize) -> bool
        ensures yes { result ≡ true → StandsAt self.now row.0 place }
        ensures no { result ≡ false → StandsAt self.now row.0 place → ⊥ }
    {
        match self.free.get(place) {
            Some(found) => self.fresh <= place && *found == row,
            None => false,
        }
    }

    /// The place of a row in the free list, if it is free and was taken before.
    fn place_of(&self, row: Row) -> Option<usize>
        ensures found { IfSome result (λ place. StandsAt self.now row.0 place) }
        ensures none { IfNone result (is_free_again self.now row.0 ≡ false) }
    {
        let place = self.spot_of(row);
        if self.stands_at(row, place) {
            Some(place)
        } else {
            None
        }
    }

    /// Whether a node that has no row of its own takes a fresh one: few of the free rows were taken before, fewer than twice the rows
    /// in use and some more. So most nodes find the row of their version before, and a run that has few nodes touches few rows.
    fn wants_fresh(&self) -> bool
        ensures { result ≡ wants_fresh self.now }
    {
        let free = self.free.len();
        let used = self.notes.len() - free;
        0 < self.fresh && free - self.fresh < 2 * used + SPARE
    }

    /// A place in the free list behind the fresh rows: one of the first there, in turn.
    fn spare_place(&mut self) -> usize
        requires some { 0 < length self.old.free.items }
        requires spare { wants_fresh self.old ≡ false }
        ensures place { (self.old.fresh ≤ result) × (result < length self.old.free.items) }
        ensures same { (self.new.writer_state ≡ self.old.writer_state) × (self.new.free ≡ self.old.free) × (self.new.left ≡ self.old.left)
            × (self.new.notes ≡ self.old.notes) × (self.new.fresh ≡ self.old.fresh) }
    {
        self.spares = self.spares.wrapping_add(1);
        let last = self.free.len() - 1;
        (self.fresh + self.spares % TURNS).min(last)
    }

    /// The place in the free list of the row that is taken for the next version of a row's node: that row, or the one that it
    /// replaced, where it is free and was taken before; else that of a fresh row where one is wanted, or of a spare one. A row that
    /// was taken since the last publish and has just been left is the last.
    pub(crate) fn place_for(&mut self, row: Row) -> usize
        requires some { 0 < length self.old.free.items }
        ensures chosen { IsChosen self.old row.0 result }
        ensures same { (self.new.writer_state ≡ self.old.writer_state) × (self.new.free ≡ self.old.free) × (self.new.left ≡ self.old.left)
            × (self.new.notes ≡ self.old.notes) × (self.new.fresh ≡ self.old.fresh) }
    {
        let last = self.free.len() - 1;
        if self.stands_at(row, last) {
            return last;
        }
        if let Some(place) = self.place_of(row) {
            return place;
        }
        if let Some(place) = self.place_of(self.replaced_by(row)) {
            return place;
        }
        if self.wants_fresh() {
            return self.fresh - 1;
        }
        self.spare_place()
    }
}
