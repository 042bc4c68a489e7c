ghost use Rattle.std.specs.Prelude.{◌≡◌, ◌<◌, ◌+◌, ◌^◌, ◌++◌, ◌∷◌, [], length, MatchResult};
ghost use Rattle.area_rules.specs.Steps.{step, after, IsLegalJournal};
ghost use Rattle.lock_core.specs.Core.{slot_at};
ghost use Rattle.lock_core.specs.Facts.{list_after};
ghost use Rattle.lock_core.specs.Rows.{Exactly};
ghost use Rattle.vma_lock.specs.Kept.{free_mark};
ghost use Rattle.vma_lock.specs.Views.{begin_at, try_at, mark_at, lock_store_at, write_at, end_at};
ghost use Rattle.vma_lock.specs.Seats.{slots_of, WritesVmaTable, lock_sight, journal, slots, HasOpenCall, HasNoOpenCall, IsMarked, MayEnter};

use crate::rule::{Begun, Ended, Stored, Tried};
use crate::seats::{VmaTable, WriterSeat};
use crate::words::{COUNTS, field_place, mark_place};
use mm_types::{Entry, Slot};

/// So many readers hold the slot that a call would mark.
#[derive(Clone, Copy, Debug, PartialEq, Eq)]
pub struct ReadersLeft {
    pub readers: u64,
}

impl VmaTable {
    /// Begins a call: the sequence becomes odd. The journal is legal then, and the rows are exactly its list.
    pub fn begin(&self, writer: &mut WriterSeat)
        requires table { WritesVmaTable writer.old self.now }
        requires closed { HasNoOpenCall writer.old }
        requires room { length (journal writer.old) < 2 ^ 31 }
        ensures table { WritesVmaTable writer.new self.now }
        ensures view { lock_sight writer.new ≡ begin_at (lock_sight writer.old) }
        ensures legal { IsLegalJournal (lock_sight writer.old).config (journal writer.old) }
        ensures exact { Exactly (slots writer.old) (list_after (lock_sight writer.old).config (journal writer.old)) }
    {
        writer.seq += 1;
        let seq = writer.seq;
        self.table.shared.store::<Begun>(&mut writer.seat, 0, seq);
    }

    /// Marks a slot in the open call, unless readers hold it: so many as are told.
    pub fn try_mark(&self, writer: &mut WriterSeat, slot: Slot) -> Result<(), ReadersLeft>
        requires table { WritesVmaTable writer.old self.now }
        requires open { HasOpenCall writer.old }
        requires slot { slot.0 < slots_of self.now }
        ensures table { WritesVmaTable writer.new self.now }
        ensures view { MatchResult result
            (λ _. lock_sight writer.new ≡ mark_at (lock_sight writer.old) slot.0 (free_mark (slot_at (slots writer.old) slot.0)))
            (λ left. (0 < left.readers) × (left.readers < 256)
            × (lock_sight writer.new ≡ try_at (lock_sight writer.old) slot.0 (free_mark (slot_at (slots writer.old) slot.0) + left.readers))) }
    {
        let place = mark_place(slot.0);
        let free = writer.marks[slot.0 as usize];
        let marked = writer.seq * COUNTS;
        let found = self
            .table
            .shared
            .compare_exchange::<Tried>(&mut writer.seat, place, free, marked);
        if found == free {
            writer.marks[slot.0 as usize] = marked;
            Ok(())
        } else {
            Err(ReadersLeft {
                readers: found - free,
            })
        }
    }

    /// Writes the row of a slot that the open call marked.
    pub fn write_row(&self, writer: &mut WriterSeat, slot: Slot, row: [u64; 4])
        requires table { WritesVmaTable writer.old self.now }
        requires open { HasOpenCall writer.old }
        requires slot { slot.0 < slots_of self.now }
        requires marked { IsMarked writer.old slot.0 }
        ensures table { WritesVmaTable writer.new self.now }
        ensures view { lock_sight writer.new ≡ write_at (lock_sight writer.old) slot.0 row }
    {
        let [first, second, third, fourth] = row;
        self.store(writer, slot, 0, first);
        self.store(writer, slot, 1, second);
        self.store(writer, slot, 2, third);
        self.store(writer, slot, 3, fourth);
    }

    /// Writes a word of the row of a slot that the open call marked.
    fn store(&self, writer: &mut WriterSeat, slot: Slot, field: usize, word: u64)
        requires table { WritesVmaTable writer.old self.now }
        requires open { HasOpenCall writer.old }
        requires slot { slot.0 < slots_of self.now }
        requires field { field < 4 }
        requires marked { IsMarked writer.old slot.0 }
        ensures table { WritesVmaTable writer.new self.now }
        ensures view { lock_sight writer.new ≡ lock_store_at (lock_sight writer.old) slot.0 field word }
        ensures wide { length (slot_at (slots writer.old) slot.0).row ≡ 4 }
    {
        let place = field_place(slot.0, field);
        self.table
            .shared
            .store::<Stored>(&mut writer.seat, place, word);
    }

    /// Ends the open call with its entry: the sequence becomes even, and the journal has one entry more.
    pub fn end(&self, writer: &mut WriterSeat, entry: Entry)
        requires table { WritesVmaTable writer.old self.now }
        requires open { HasOpenCall writer.old }
        requires reply { entry.reply ≡ (step (lock_sight writer.old).config (after (lock_sight writer.old).config (journal writer.old)) entry.call).reply }
        requires exact { Exactly (slots writer.old) (list_after (lock_sight writer.old).config (journal writer.old ++ entry ∷ [])) }
        requires turn { MayEnter entry (lock_sight writer.old).turn }
        ensures table { WritesVmaTable writer.new self.now }
        ensures view { lock_sight writer.new ≡ end_at (lock_sight writer.old) entry }
    {
        let seq = writer.seq;
        self.table
            .shared
            .compare_exchange_with::<Ended>(&mut writer.seat, 0, seq, seq + 1, &entry);
        writer.seq = seq + 1;
    }
}
