ghost use Rattle.std.specs.Arc.{arc_value};
ghost use Rattle.std.specs.Prelude.{◌≡◌};
ghost use Rattle.vma_lock.specs.Kept.{IsVmaTableSized, LockReaderKept, ReaderCounts, NoteKept, LockWriterKept};

use crate::rule::LockRule;
use crate::view::View;
use atomic_table::{Seat, Table};
use mm_types::{Config, Entry};
use std::alloc::Global;
use std::sync::Arc;

/// A handle of a table: a sequence word, and a mark word and a row of four words for each slot.
#[derive(Drop)]
pub struct VmaTable {
    pub(crate) table: Arc<Table<Entry, View, Config, LockRule, Global>, Global>,
    pub ghost sized: { IsVmaTableSized (arc_value table).shared.key (arc_value table).shared.table_id.words },
}

/// A reader of a table. It can hold one slot.
#[derive(Drop)]
pub struct ReaderSeat {
    pub(crate) seat: Seat<Entry, View>,
    pub(crate) caller: u32,
    pub(crate) slot: u32,
    /// How often it looked, up to the greatest number.
    pub(crate) looks: u64,
    /// How many entries it has seen.
    pub(crate) version: u64,
    pub ghost kept: { LockReaderKept caller slot seat.table_id.words seat.me },
    pub ghost counts: { ReaderCounts looks version seat.me },
}

/// A note of what a reader has seen. It can hold no slot, and has no turn.
#[derive(Drop)]
pub struct NoteSeat {
    pub(crate) seat: Seat<Entry, View>,
    /// How many entries it has seen.
    pub(crate) version: u64,
    pub ghost kept: { NoteKept version seat.me },
}

/// The one writer of a table.
#[derive(Drop)]
pub struct WriterSeat {
    pub(crate) seat: Seat<Entry, View>,
    pub(crate) table: VmaTable,
    pub(crate) seq: u64,
    /// Each slot's mark word, without the count of readers.
    pub(crate) marks: Vec<u64>,
    pub(crate) turn: Option<u32>,
    pub ghost kept: { LockWriterKept (arc_value table.table).shared.key seq marks.items turn seat.table_id.words seat.me },
    pub ghost table_is: { seat.table_id ≡ (arc_value table.table).shared.table_id },
}
