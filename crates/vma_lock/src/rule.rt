ghost use Rattle.vma_lock.specs.Rule.{ShowsLock};
ghost use Rattle.vma_lock.specs.Plays.{add_tells, look_tells, field_tells, sub_tells, begin_tells, mark_tells, store_tells, end_tells, join_tells};
ghost use Rattle.vma_lock.specs.Views.{opened_lock_view, spent_lock_view, after_lock_reader, new_lock_reader, without_turn, note_view, turn_note, lent_at, heard_at, lock_joined_at, returned_at};

use crate::view::View;
use atomic_table::{Join, Play, Split, TableRule};
use mm_types::{Config, Entry};

/// The rule of the table.
pub(crate) struct LockRule;

impl TableRule<Entry, View, Config> for LockRule {
    ghost holds = { ShowsLock };

    ghost first = { λ config. opened_lock_view config 0 };
}

/// A reader is counted in a slot.
pub(crate) struct Added;

impl Play<Entry, View> for Added {
    ghost then = { add_tells };
}

/// The sequence is read.
pub(crate) struct Looked;

impl Play<Entry, View> for Looked {
    ghost then = { look_tells };
}

/// A word of a row is read.
pub(crate) struct Read;

impl Play<Entry, View> for Read {
    ghost then = { field_tells };
}

/// A slot is given back.
pub(crate) struct GivenBack;

impl Play<Entry, View> for GivenBack {
    ghost then = { sub_tells };
}

/// A call begins.
pub(crate) struct Begun;

impl Play<Entry, View> for Begun {
    ghost then = { begin_tells };
}

/// A slot is marked, or readers are found in it.
pub(crate) struct Tried;

impl Play<Entry, View> for Tried {
    ghost then = { mark_tells };
}

/// A word of a row is written.
pub(crate) struct Stored;

impl Play<Entry, View> for Stored {
    ghost then = { store_tells };
}

/// A call ends.
pub(crate) struct Ended;

impl Play<Entry, View> for Ended {
    ghost then = { end_tells };
}

/// A load tells of the last join.
pub(crate) struct Settled;

impl Play<Entry, View> for Settled {
    ghost then = { join_tells };
}

/// The writer makes a reader.
pub(crate) struct NewReader;

impl Split<View> for NewReader {
    ghost left = { after_lock_reader };

    ghost right = { new_lock_reader };
}

/// A note is made of what a seat has seen.
pub(crate) struct Noted;

impl Split<View> for Noted {
    ghost left = { λ view. view };

    ghost right = { note_view };
}

/// A note is made that takes the seat's turn along.
pub(crate) struct TurnNoted;

impl Split<View> for TurnNoted {
    ghost left = { without_turn };

    ghost right = { turn_note };
}

/// A note with a turn is joined into the writer.
pub(crate) struct Lent;

impl Join<View> for Lent {
    ghost both = { lent_at };

    ghost spent = { spent_lock_view };
}

/// A note is joined into the writer.
pub(crate) struct Heard;

impl Join<View> for Heard {
    ghost both = { heard_at };

    ghost spent = { spent_lock_view };
}

/// A seat is joined into a reader.
pub(crate) struct Joined;

impl Join<View> for Joined {
    ghost both = { lock_joined_at };

    ghost spent = { spent_lock_view };
}

/// A note with a turn is joined into a reader.
pub(crate) struct Returned;

impl Join<View> for Returned {
    ghost both = { returned_at };

    ghost spent = { spent_lock_view };
}
