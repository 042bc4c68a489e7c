//! Where the words of a table stand: the sequence has as many as a cache line, and so has each slot.
ghost use Rattle.std.specs.Prelude.{◌≡◌, ◌<◌, ◌+◌, ◌*◌};
ghost use Rattle.mm_types.specs.Config.{IsValidConfig};
ghost use Rattle.vma_lock.specs.Views.{slot_count};
ghost use Rattle.vma_lock.specs.Words.{mark_place, field_place};

use mm_types::{Config, slots_for};

/// The words of a cache line, which has 64 bytes.
const LINE: usize = 8;

/// A mark word is the lock sequence times this, plus the count of readers. There are at most 64 readers, and each holds one slot, so the count
/// never runs over into the sequence.
pub(crate) const COUNTS: u64 = 256;

/// The place of a slot's mark word.
pub(crate) fn mark_place(slot: u32) -> usize
    ensures { result ≡ mark_place slot }
{
    // the first eight are those of the sequence
    (slot as usize + 1) * LINE
}

/// The place of a word of a slot's row.
pub(crate) fn field_place(slot: u32, field: usize) -> usize
    requires { field < 4 }
    ensures { result ≡ field_place slot field }
{
    // the row stands after the mark word
    mark_place(slot) + 1 + field
}

/// How many words a table has.
pub fn word_count(config: &Config) -> usize
    requires { IsValidConfig config.now }
    ensures { result ≡ (slot_count config.now + 1) * 8 }
{
    (slots_for(config.areas) as usize + 1) * LINE
}
