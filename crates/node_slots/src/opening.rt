ghost use Rattle.std.specs.Prelude.{◌≡◌, ◌≤◌, ◌<◌, ℕ, [], IfOk, length, slice_get, Some};
ghost use Rattle.std.specs.Arc.{arc_value};
ghost use Rattle.std.specs.VecDeque.{deque_capacity};
ghost use Rattle.node_slots.specs.declared.seats.NodeSeat.{NodeSeat as Reader};
ghost use Rattle.node_slots.specs.Places.{word_count};
ghost use Rattle.node_slots.specs.Views.{opened_node_view, reader_view, new_node_reader, after_node_reader};
ghost use Rattle.node_slots.specs.Kept.{IsSize, free_numbers, FallsFrom};
ghost use Rattle.node_slots.specs.Opening.{IsFreeFrom};
ghost use Rattle.node_slots.specs.Seats.{size_of, IsOfNodeTable, WritesNodeTable, node_view, node_sight, free_of, retired_rows};

use crate::first_words::FirstWords;
use crate::note::RowNote;
use crate::places::word_count;
use crate::rule::NewReader;
use crate::seats::{NodeSeat, NodeTable, NodeWriter, NodeWriterSeat};
use crate::view::Size;
use atomic_table::Table;
use grace_core::NEW_CLEARING;
use maple_node::{Root, pack_root};
use mm_types::{NoMemory, Row};
use std::alloc::Global;
use std::collections::VecDeque;
use std::sync::Arc;

/// The root of tree 0, a leaf without entries in row 0.
const FIRST_ROOT: Root = Root {
    tree: 0,
    height: 1,
    row: Row(0),
};

/// What is remembered of a row that was never taken.
const NO_NOTE: RowNote = RowNote {
    first: 0,
    replaced: Row(0),
    spot: 0,
};

impl NodeTable {
    /// Makes a table of so many rows with its writer and so many readers. Tree 0, a leaf without entries in row 0, is present, all
    /// other rows are free, and all readers are closed. Its trees pair only slots below `slots`.
    pub fn new(
        alloc: Global,
        rows: u32,
        slots: u32,
        readers: u32,
    ) -> Result<(NodeTable, NodeWriter, Vec<NodeSeat>), NoMemory>
        requires size { IsSize (record { rows = rows; slots = slots; readers = readers }) }
        ensures table { IfOk result (λ made. size_of made.0 ≡ record { rows = rows; slots = slots; readers = readers }) }
        ensures writer { IfOk result (λ made. WritesNodeTable made.1 made.0
            × (node_sight made.1 ≡ opened_node_view (record { rows = rows; slots = slots; readers = readers }) readers)) }
        ensures free { IfOk result (λ made. IsFreeFrom 1 rows (free_of made.1)) }
        ensures left { IfOk result (λ made. retired_rows made.1 ≡ []) }
        ensures seats { IfOk result (λ made. length made.2.items ≡ readers) }
        ensures fresh { IfOk result (λ made. (reader : ℕ) (seat : Reader) → slice_get made.2.items reader ≡ Some seat → IsOfNodeTable seat made.0
            × (node_view seat ≡ reader_view (record { rows = rows; slots = slots; readers = readers }) reader)) }
    {
        let words = FirstWords::new(alloc, rows)?;
        NodeTable::of_words(alloc, words, rows, slots, readers)
    }

    /// The same, copied from words that are made already.
    pub fn of_words(
        alloc: Global,
        words: FirstWords,
        rows: u32,
        slots: u32,
        readers: u32,
    ) -> Result<(NodeTable, NodeWriter, Vec<NodeSeat>), NoMemory>
        requires size { IsSize (record { rows = rows; slots = slots; readers = readers }) }
        requires words { word_count (record { rows = rows; slots = slots; readers = readers }) ≤ words.count }
        ensures table { IfOk result (λ made. size_of made.0 ≡ record { rows = rows; slots = slots; readers = readers }) }
        ensures writer { IfOk result (λ made. WritesNodeTable made.1 made.0
            × (node_sight made.1 ≡ opened_node_view (record { rows = rows; slots = slots; readers = readers }) readers)) }
        ensures free { IfOk result (λ made. IsFreeFrom 1 rows (free_of made.1)) }
        ensures left { IfOk result (λ made. retired_rows made.1 ≡ []) }
        ensures seats { IfOk result (λ made. length made.2.items ≡ readers) }
        ensures fresh { IfOk result (λ made. (reader : ℕ) (seat : Reader) → slice_get made.2.items reader ≡ Some seat → IsOfNodeTable seat made.0
            × (node_view seat ≡ reader_view (record { rows = rows; slots = slots; readers = readers }) reader)) }
    {
        let size = Size {
            rows,
            slots,
            readers,
        };
        let (table, mut writer) = open(alloc, words, size)?;
        let mut seats = Vec::with_capacity(alloc, readers as usize)?;
        for reader in 0..readers {
            seats.push(table.new_reader(&mut writer, reader))?;
        }
        Ok((table, writer, seats))
    }

    /// The next reader.
    fn new_reader(&self, writer: &mut NodeWriter, reader: u32) -> NodeSeat
        requires table { WritesNodeTable writer.old self.now }
        requires reader { (reader ≡ (node_sight writer.old).known.made) × (reader < (size_of self.now).readers) }
        ensures table { WritesNodeTable writer.new self.now × IsOfNodeTable result self.now }
        ensures writer { node_sight writer.new ≡ after_node_reader (node_sight writer.old) }
        ensures free { free_of writer.new ≡ free_of writer.old }
        ensures left { retired_rows writer.new ≡ retired_rows writer.old }
        ensures view { node_view result ≡ new_node_reader (node_sight writer.old) }
    {
        let seat = self
            .table
            .shared
            .split_seat::<NewReader>(&mut writer.writer_state.seat);
        NodeSeat {
            seat,
            reader,
            walks: 0,
        }
    }
}

/// A table with no reader.
fn open(alloc: Global, words: FirstWords, size: Size) -> Result<(NodeTable, NodeWriter), NoMemory>
    requires size { IsSize size }
    requires words { word_count size ≤ words.count }
    ensures table { IfOk result (λ made. size_of made.0 ≡ size) }
    ensures writer { IfOk result (λ made. WritesNodeTable made.1 made.0 × (node_sight made.1 ≡ opened_node_view size 0)) }
    ensures free { IfOk result (λ made. IsFreeFrom 1 size.rows (free_of made.1)) }
    ensures left { IfOk result (λ made. retired_rows made.1 ≡ []) }
{
    let (table, writer_state) = open_seat(alloc, words, size)?;
    let writer = NodeWriter {
        writer_state,
        free: first_free(alloc, size.rows)?,
        left: VecDeque::with_capacity(alloc, size.rows as usize)?,
        notes: vec![in alloc; NO_NOTE; size.rows as usize]?,
        fresh: (size.rows - 1) as usize,
        spares: 0,
    };
    Ok((table, writer))
}

/// A table with no reader, and the seat of its writer.
fn open_seat(
    alloc: Global,
    mut words: FirstWords,
    size: Size,
) -> Result<(NodeTable, NodeWriterSeat), NoMemory>
    requires size { IsSize size }
    requires words { word_count size ≤ words.count }
    ensures table { IfOk result (λ made. size_of made.0 ≡ size) }
    ensures seat { IfOk result (λ made. (made.1.seat.table_id ≡ (arc_value made.0.table).shared.table_id) × (made.1.table.size ≡ size)
        × (made.1.seat.me.0 ≡ opened_node_view size 0)) }
    ensures blank { IfOk result (λ made. length made.1.words.items ≡ 0) }
{
    let clearings = vec![in alloc; NEW_CLEARING; size.readers as usize]?;
    words.set_first(pack_root(FIRST_ROOT));
    let first = words.take(word_count(size.rows, size.readers));
    let (table, seat) = Table::of_words(alloc, first, &size)?;
    let table = NodeTable {
        table: Arc::new(alloc, table)?,
        size,
    };
    let seat = NodeWriterSeat {
        seat,
        table: NodeTable {
            table: Arc::try_clone(&table.table)?,
            size,
        },
        root: FIRST_ROOT,
        words: Vec::with_capacity(alloc, size.rows as usize)?,
        clearings,
    };
    Ok((table, seat))
}

/// All rows but the first, the lowest last.
fn first_free(alloc: Global, count: u32) -> Result<VecDeque<Row>, NoMemory>
    requires { 1 ≤ count }
    ensures room { IfOk result (λ free. count ≤ deque_capacity free) }
    ensures free { IfOk result (λ free. IsFreeFrom 1 count (free_numbers free.items)) }
    ensures order { IfOk result (λ free. FallsFrom count (free_numbers free.items)) }
{
    let mut free = VecDeque::with_capacity(alloc, count as usize)?;
    for row in 1..count {
        free.push_front(Row(row))?;
    }
    Ok(free)
}
