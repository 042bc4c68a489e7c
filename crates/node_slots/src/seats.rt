ghost use Rattle.std.specs.Arc.{arc_value};
ghost use Rattle.std.specs.Prelude.{◌≡◌, ◌≤◌, ◌+◌, length, vec_capacity};
ghost use Rattle.std.specs.VecDeque.{deque_capacity};
ghost use Rattle.node_slots.specs.Kept.{IsNodeTableSized, NodeReaderKept, NodeWriterKept, RowsKept, PlacesKept, firsts_of, spots_of, free_numbers, with_empty};

use crate::left::Left;
use crate::note::RowNote;
use crate::rule::GraceRule;
use crate::view::{NodeView, Size};
use atomic_table::{Seat, Table};
use grace_core::Clearing;
use maple_node::Root;
use mm_types::Row;
use std::alloc::Global;
use std::collections::VecDeque;
use std::sync::Arc;

/// A handle of a table: a root word, a pin for each reader, and rows of 32 words.
#[derive(Drop)]
pub struct NodeTable {
    pub(crate) table: Arc<Table<(), NodeView, Size, GraceRule, Global>, Global>,
    pub(crate) size: Size,
    pub ghost sized: { IsNodeTableSized size (arc_value table).shared.key (arc_value table).shared.table_id.words },
}

/// A reader of a table.
#[derive(Drop)]
pub struct NodeSeat {
    pub(crate) seat: Seat<(), NodeView>,
    pub(crate) reader: u32,
    /// How many roots it loaded, up to the greatest number.
    pub(crate) walks: u64,
    pub ghost kept: { NodeReaderKept reader walks seat.table_id.words seat.me },
}

/// The writer's seat, with what it knows of the table.
#[derive(Drop)]
pub struct NodeWriterSeat {
    pub(crate) seat: Seat<(), NodeView>,
    pub(crate) table: NodeTable,
    /// The root of the present tree.
    pub(crate) root: Root,
    /// The words of each row up to the highest that was filled. There is room for all rows, and it is touched as they are filled.
    pub(crate) words: Vec<[u64; 32]>,
    /// What the scans of each reader found.
    pub(crate) clearings: Vec<Clearing>,
    pub ghost kept: { NodeWriterKept table.size root (with_empty table.size.rows words.items) clearings.items seat.me },
    pub ghost filled: { length words.items ≤ table.size.rows },
    pub ghost room: { table.size.rows ≤ vec_capacity words },
    pub ghost table_is: { seat.table_id ≡ (arc_value table.table).shared.table_id },
}

/// The one writer of a table. It knows which rows are free, which were left, and which are of the present tree.
#[derive(Drop)]
pub struct NodeWriter {
    pub(crate) writer_state: NodeWriterSeat,
    pub(crate) free: VecDeque<Row>,
    /// The rows that were left and are not free again, in the order of the trees that leave them out.
    pub(crate) left: VecDeque<Left>,
    /// For each row what is remembered of it, in one place, since each store touches all of it.
    pub(crate) notes: Vec<RowNote>,
    /// How many rows at the front of the free list are fresh: they were not taken yet.
    pub(crate) fresh: usize,
    /// How often another row than a fresh one was taken for a node that had none.
    pub(crate) spares: usize,
    pub ghost rows: { RowsKept writer_state.table.size.rows free.items left.items (firsts_of notes.items) writer_state.seat.me.0.known.writer_state },
    pub ghost places: { PlacesKept writer_state.table.size.rows fresh (free_numbers free.items) (spots_of notes.items) },
    /// No word of a fresh row was touched.
    pub ghost untouched: { length writer_state.words.items + fresh ≤ writer_state.table.size.rows },
    pub ghost free_room: { writer_state.table.size.rows ≤ deque_capacity free },
    pub ghost left_room: { writer_state.table.size.rows ≤ deque_capacity left },
}
