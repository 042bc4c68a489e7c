//! Notes: what one reader has seen, for another.
ghost use Rattle.std.specs.Prelude.{◌≡◌, ℕ, length, Some};
ghost use Rattle.lock_core.specs.Core.{StartsWith};
ghost use Rattle.area_rules.specs.Journals.{calls_by};
ghost use Rattle.vma_lock.specs.Views.{note_view, lock_joined_at};
ghost use Rattle.vma_lock.specs.Seats.{IsOfVmaTable, IsNoteOf, lock_view, seen, told};

use crate::rule::{Joined, Noted, Settled};
use crate::seats::{NoteSeat, ReaderSeat, VmaTable};

impl NoteSeat {
    /// How many entries of the journal it has seen.
    pub fn version(&self) -> u64
        ensures { result ≡ length (told self.now).seen }
    {
        self.version
    }
}

impl VmaTable {
    /// Makes a note of what a reader has seen, which stays as it is.
    pub fn split(&self, seat: &mut ReaderSeat) -> NoteSeat
        requires { IsOfVmaTable seat.old self.now }
        ensures tables { IsOfVmaTable seat.new self.now × IsNoteOf result self.now }
        ensures seat { lock_view seat.new ≡ lock_view seat.old }
        ensures note { told result ≡ note_view (lock_view seat.old) }
    {
        let version = seat.version;
        let seat = self.table.shared.split_seat::<Noted>(&mut seat.seat);
        NoteSeat { seat, version }
    }

    /// Takes a note: the reader has then seen the longer of both lists, each of which begins it, and no entry that is new to it is
    /// of the caller whose turn it has.
    pub fn take_note(&self, seat: &mut ReaderSeat, note: NoteSeat)
        requires tables { IsOfVmaTable seat.old self.now × IsNoteOf note self.now }
        ensures table { IsOfVmaTable seat.new self.now }
        ensures view { lock_view seat.new ≡ lock_joined_at (lock_view seat.old) (told note) }
        ensures old { StartsWith (seen seat.new) (seen seat.old) }
        ensures note { StartsWith (seen seat.new) (told note).seen }
        ensures own { (caller : ℕ) → (lock_view seat.old).turn ≡ Some caller → calls_by caller (seen seat.new) ≡ calls_by caller (seen seat.old) }
    {
        let shared = &self.table.shared;
        let NoteSeat {
            seat: taken,
            version,
        } = note;
        shared.join_seat::<Joined>(&mut seat.seat, taken);
        seat.version = seat.version.max(version);
        shared.load::<Settled>(&mut seat.seat, 0);
    }
}
