ghost use Rattle.std.specs.Prelude.{◌≡◌, ◌<◌, ◌-◌, ◌^◌, min, length, true};
ghost use Rattle.lock_core.specs.declared.stage.Stage.TheVariants.{Out};
ghost use Rattle.vma_lock.specs.Views.{add_at, look_at, field_at, read_at, sub_at};
ghost use Rattle.vma_lock.specs.Rule.{IsTraced};
ghost use Rattle.vma_lock.specs.Plays.{IsSettled, Sees, LooksAt, ReadsRow};
ghost use Rattle.vma_lock.specs.Seats.{slots_of, IsOfVmaTable, lock_view, seen, stage, HoldsSlot, is_validated, row_of};

use crate::rule::{Added, GivenBack, Looked, Read};
use crate::seats::{ReaderSeat, VmaTable};
use crate::words::{COUNTS, field_place, mark_place};
use mm_types::Slot;

impl ReaderSeat {
    /// Whose seat it is.
    pub fn caller(&self) -> u32
        ensures { result ≡ (lock_view self.now).caller }
    {
        self.caller
    }

    /// How often it looked at the sequence, or 2^64 - 1 where it looked more often.
    pub fn looks(&self) -> u64
        ensures { result ≡ min (lock_view self.now).trace.looks (2 ^ 64 - 1) }
    {
        self.looks
    }

    /// How many entries of the journal it has seen.
    pub fn version(&self) -> u64
        ensures { result ≡ length (seen self.now) }
    {
        self.version
    }
}

impl VmaTable {
    /// Counts the reader in a slot, and answers the lock sequence that was found there.
    pub fn add(&self, seat: &mut ReaderSeat, slot: Slot) -> u64
        requires table { IsOfVmaTable seat.old self.now }
        requires free { stage seat.old ≡ Out }
        requires slot { slot.0 < slots_of self.now }
        ensures table { IsOfVmaTable seat.new self.now }
        ensures view { lock_view seat.new ≡ add_at (lock_view seat.old) slot.0 result }
    {
        seat.slot = slot.0;
        let place = mark_place(slot.0);
        let found = self
            .table
            .shared
            .fetch_add::<Added>(&mut seat.seat, place, 1);
        found / COUNTS
    }

    /// Reads the sequence, and answers it. The reader has then seen the whole journal, and it is validated where it holds
    /// a slot in which its add found another sequence.
    pub fn look(&self, seat: &mut ReaderSeat) -> u64
        requires { IsOfVmaTable seat.old self.now }
        ensures table { IsOfVmaTable seat.new self.now }
        ensures seen { Sees (lock_view seat.old) result (seen seat.new) }
        ensures joined { IsSettled (lock_view seat.old) }
        ensures slot { LooksAt (lock_view seat.old).config (seen seat.new) result (stage seat.old) (stage seat.new) }
        ensures view { lock_view seat.new ≡ look_at (lock_view seat.old) result (seen seat.new) (stage seat.new) }
    {
        let found = self.table.shared.load::<Looked>(&mut seat.seat, 0);
        seat.looks = seat.looks.saturating_add(1);
        seat.version = found / 2 - 1;
        found
    }

    /// Reads the row of the slot that a validated reader holds: the words that it had at the first validating look, which
    /// are right for the list after the journal that this look saw.
    pub fn read_row(&self, seat: &mut ReaderSeat) -> [u64; 4]
        requires table { IsOfVmaTable seat.old self.now }
        requires valid { is_validated (stage seat.old) ≡ true }
        ensures table { IsOfVmaTable seat.new self.now }
        ensures row { result ≡ row_of (stage seat.old) }
        ensures right { IsTraced (lock_view seat.old).config (lock_view seat.old).trace.added (lock_view seat.old).trace.valid (stage seat.old) }
        ensures view { lock_view seat.new ≡ read_at (lock_view seat.old) result }
    {
        let first = self.field(seat, 0);
        let second = self.field(seat, 1);
        let third = self.field(seat, 2);
        let fourth = self.field(seat, 3);
        [first, second, third, fourth]
    }

    /// Reads a word of the row of the reader's slot.
    fn field(&self, seat: &mut ReaderSeat, field: usize) -> u64
        requires table { IsOfVmaTable seat.old self.now }
        requires field { field < 4 }
        ensures table { IsOfVmaTable seat.new self.now }
        ensures slot { seat.new.slot ≡ seat.old.slot }
        ensures row { ReadsRow (stage seat.old) seat.old.slot field result }
        ensures right { IsTraced (lock_view seat.old).config (lock_view seat.old).trace.added (lock_view seat.old).trace.valid (stage seat.old) }
        ensures view { lock_view seat.new ≡ field_at (lock_view seat.old) result }
    {
        let place = field_place(seat.slot, field);
        self.table.shared.load::<Read>(&mut seat.seat, place)
    }

    /// Gives the reader's slot back.
    pub fn sub(&self, seat: &mut ReaderSeat)
        requires table { IsOfVmaTable seat.old self.now }
        requires held { HoldsSlot (stage seat.old) }
        ensures table { IsOfVmaTable seat.new self.now }
        ensures view { lock_view seat.new ≡ sub_at (lock_view seat.old) }
    {
        let place = mark_place(seat.slot);
        self.table
            .shared
            .fetch_sub::<GivenBack>(&mut seat.seat, place, 1);
    }
}
